ghost use Rattle.std.specs.Prelude.{◌≡◌, ◌<◌, ◌≤◌, ◌^◌, length, option_map, codes, slice_get, Some, IfOk};
ghost use Rattle.std.specs.List.{slice_split};
ghost use Rattle.std.specs.Str.{bytes_eq};
ghost use Rattle.fault_notifier.specs.Filters.{lets_all, behind, name, with_location, with_type_id, with_group, with_term, matches, is_comma, IsFiltered, texts};

use crate::events::FaultEvent;
use crate::faults::FilterFault;
use decimal_numbers::read_number;
use ft_base::{NAME_LIMIT, Name, NameFault, NoMemory};
use std::alloc::{AllocError, Global};
use std::marker::Model;

/// Which events a subscriber is told of: those that have all that is said.
#[derive(Debug, Drop)]
pub struct Filter {
    location: Option<u128>,
    type_id: Option<Name>,
    group: Option<u128>,
}

impl Model for Filter {
    ghost use Rattle.fault_notifier.specs.Filters.{Filter as Lets};

    ghost Value = { Lets };

    ghost view = { λ f. record { location = f.location; type_id = f.type_id; group = f.group } };
}

/// The text behind a beginning, where it begins so.
fn behind<'a>(front: &[u8], text: &'a [u8]) -> Option<&'a [u8]>
    ensures { option_map (λ t. t.now) result ≡ behind front.now text.now }
{
    text.strip_prefix(front)
}

fn name_in(alloc: Global, text: &[u8]) -> Result<Option<Name>, NoMemory>
    ensures { IfOk result (λ found. found ≡ name text.now) }
{
    if text.len() > NAME_LIMIT {
        return Ok(None);
    }
    match Name::of(alloc, text) {
        Ok(name) => Ok(Some(name)),
        Err(NameFault::NoMemory) => Err(NoMemory),
        Err(_) => Ok(None),
    }
}

impl Filter {
    /// The filter that lets all events through.
    pub fn all() -> Filter
        ensures { result ≡ lets_all }
    {
        Filter {
            location: None,
            type_id: None,
            group: None,
        }
    }

    fn with_location(self, text: &[u8]) -> Option<Filter>
        ensures { result ≡ with_location self text.now }
    {
        if self.location.is_some() {
            return None;
        }
        let location = read_number(text)?;
        Some(Filter {
            location: Some(location),
            ..self
        })
    }

    fn with_group(self, text: &[u8]) -> Option<Filter>
        ensures { result ≡ with_group self text.now }
    {
        if self.group.is_some() {
            return None;
        }
        let group = read_number(text)?;
        Some(Filter {
            group: Some(group),
            ..self
        })
    }

    fn with_type_id(self, alloc: Global, text: &[u8]) -> Result<Option<Filter>, NoMemory>
        ensures { IfOk result (λ found. found ≡ with_type_id self text.now) }
    {
        if self.type_id.is_some() {
            return Ok(None);
        }
        match name_in(alloc, text)? {
            None => Ok(None),
            Some(type_id) => Ok(Some(Filter {
                type_id: Some(type_id),
                ..self
            })),
        }
    }

    /// The filter with one term more, where that is one and its name is new.
    fn with_term(self, alloc: Global, text: &[u8]) -> Result<Option<Filter>, NoMemory>
        ensures { IfOk result (λ found. found ≡ with_term self text.now) }
    {
        if let Some(location) = behind(b"Location=h".as_slice(), text) {
            return Ok(self.with_location(location));
        }
        if let Some(type_id) = behind(b"TypeId=".as_slice(), text) {
            return self.with_type_id(alloc, type_id);
        }
        if let Some(group) = behind(b"ObjectGroupId=".as_slice(), text) {
            return Ok(self.with_group(group));
        }
        Ok(None)
    }

    /// Whether an event is let through.
    pub(crate) fn matches(&self, event: &FaultEvent) -> bool
        ensures { result ≡ matches self.now event.now }
    {
        let at_host = match self.location {
            None => true,
            Some(host) => host == u128::from(event.host.0),
        };
        let of_type = match &self.type_id {
            None => true,
            Some(type_id) => type_id.bytes() == event.type_id.bytes(),
        };
        let of_group = match self.group {
            None => true,
            Some(group) => group == u128::from(event.group.0),
        };
        at_host && of_type && of_group
    }
}

fn is_comma(byte: u8) -> bool
    ensures { result ≡ is_comma byte }
{
    byte == b','
}

/// The terms of a text, between commas.
pub(crate) fn split_terms(alloc: Global, text: &[u8]) -> Result<Vec<&[u8]>, AllocError>
    ensures { IfOk result (λ v. texts v.items ≡ slice_split is_comma text.now) }
{
    text.split(|byte| is_comma(*byte)).collect(alloc)
}

/// Whether a text is the one of no terms.
pub(crate) fn is_dash(text: &[u8]) -> bool
    ensures { result ≡ bytes_eq text.now (codes "-") }
{
    text == b"-".as_slice()
}

fn term_at<'a>(terms: &[&'a [u8]], place: usize) -> &'a [u8]
    requires { place < length terms.now }
    ensures { slice_get (texts terms.now) place ≡ Some result.now }
{
    terms[place]
}

/// The filter with all these terms.
pub(crate) fn filter_of(alloc: Global, terms: &[&[u8]]) -> Result<Filter, FilterFault>
    requires { length terms.now ≤ 2 ^ 32 }
    ensures { IsFiltered (texts terms.now) result }
{
    let mut filter = Filter::all();
    for place in 0..terms.len() {
        match filter.with_term(alloc, term_at(terms, place))? {
            None => return Err(FilterFault::BadFilter(place as u32)),
            Some(more) => filter = more,
        }
    }
    Ok(filter)
}
