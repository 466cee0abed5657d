//! Whether a list of properties, or of names, is taken.
ghost use Rattle.std.specs.Prelude.{◌≡◌, ◌<◌, ◌≤◌, ◌^◌, [], Some, None, true, false, length, take, slice_get, is_none, IfSome};
ghost use Rattle.property_manager.specs.Judging.{first_place, is_fixed_name, is_invalid, is_refused, is_wrong, judged, refusal, refusal_of_names, standing_in};

use crate::faults::PropertyFault;
use crate::names::PropertyName;
use crate::settings::{Property, has_name, is_among};
use crate::standings::{Standing, standing_of};
use ft_base::Name;

fn property_at(properties: &[Property], place: usize) -> &Property
    requires { place < length properties.now }
    ensures { slice_get properties.now place ≡ Some result.now }
{
    &properties[place]
}

fn properties_before(properties: &[Property], place: usize) -> &[Property]
    requires { place ≤ length properties.now }
    ensures { result.now ≡ take place properties.now }
{
    &properties[..place]
}

fn name_at(names: &[Name], place: usize) -> &Name
    requires { place < length names.now }
    ensures { slice_get names.now place ≡ Some result.now }
{
    &names[place]
}

fn names_before(names: &[Name], place: usize) -> &[Name]
    requires { place ≤ length names.now }
    ensures { result.now ≡ take place names.now }
{
    &names[..place]
}

/// What a property's value is to the property of its name.
#[tactic(auto, unfolding(crate::specs::Judging::standing_in))]
fn standing_in(property: &Property) -> Standing
    ensures { result ≡ standing_in property.now }
{
    match PropertyName::named(property.name.bytes()) {
        None => Standing::Unlisted,
        Some(name) => standing_of(name, property.value.0.bytes()),
    }
}

fn is_invalid(before: &[Property], property: &Property) -> bool
    ensures { result ≡ is_invalid before.now property.now }
{
    standing_in(property).is_unlisted() || has_name(before, &property.name)
}

/// Whether a property is settled at a group's creation.
fn is_fixed(name: Option<PropertyName>) -> bool
    ensures { result ≡ is_fixed_name name }
{
    match name {
        Some(PropertyName::ReplicationStyle) => true,
        Some(PropertyName::MembershipStyle) => true,
        Some(PropertyName::ConsistencyStyle) => true,
        Some(PropertyName::InitialNumberReplicas) => true,
        Some(_) => false,
        None => false,
    }
}

fn is_refused(runs: bool, property: &Property) -> bool
    ensures { result ≡ is_refused runs [] property.now }
{
    standing_in(property).is_unsupported()
        || (runs && is_fixed(PropertyName::named(property.name.bytes())))
}

#[tactic(auto, using(crate::proofs::PlaceLemmas::none_yet, crate::proofs::PlaceLemmas::passed, crate::proofs::PlaceLemmas::found, crate::proofs::PlaceLemmas::none))]
fn first_invalid(properties: &[Property]) -> Option<usize>
    ensures place { result ≡ first_place is_invalid [] properties.now }
    ensures within { IfSome result (λ p. p < length properties.now) }
{
    for place in 0..properties.len() {
        let before = properties_before(properties, place);
        if is_invalid(before, property_at(properties, place)) {
            return Some(place);
        }
    }
    None
}

#[tactic(auto, using(crate::proofs::PlaceLemmas::none_yet, crate::proofs::PlaceLemmas::passed, crate::proofs::PlaceLemmas::found, crate::proofs::PlaceLemmas::none))]
fn first_refused(runs: bool, properties: &[Property]) -> Option<usize>
    ensures place { result ≡ first_place (is_refused runs) [] properties.now }
    ensures within { IfSome result (λ p. p < length properties.now) }
{
    for place in 0..properties.len() {
        if is_refused(runs, property_at(properties, place)) {
            return Some(place);
        }
    }
    None
}

fn is_wrong(before: &[Name], name: &Name) -> bool
    ensures { result ≡ is_wrong before.now name.now }
{
    PropertyName::named(name.bytes()).is_none() || is_among(before, name)
}

#[tactic(auto, using(crate::proofs::PlaceLemmas::none_yet, crate::proofs::PlaceLemmas::passed, crate::proofs::PlaceLemmas::found, crate::proofs::PlaceLemmas::none))]
fn first_wrong(names: &[Name]) -> Option<usize>
    ensures place { result ≡ first_place is_wrong [] names.now }
    ensures within { IfSome result (λ p. p < length names.now) }
{
    for place in 0..names.len() {
        if is_wrong(names_before(names, place), name_at(names, place)) {
            return Some(place);
        }
    }
    None
}

/// Whether a list of properties is taken; `runs` says that it is for a group that runs. It takes no memory.
pub(crate) fn judge(properties: &[Property], runs: bool) -> Result<(), PropertyFault>
    requires { length properties.now ≤ 2 ^ 32 }
    ensures { result ≡ judged (refusal runs properties.now) }
{
    if let Some(place) = first_invalid(properties) {
        return Err(PropertyFault::InvalidProperty {
            place: place as u32,
        });
    }
    match first_refused(runs, properties) {
        None => Ok(()),
        Some(place) => Err(PropertyFault::UnsupportedProperty {
            place: place as u32,
        }),
    }
}

/// Whether the criteria of a group's creation are taken. It takes no memory.
pub fn judge_criteria(criteria: &[Property]) -> Result<(), PropertyFault>
    requires { length criteria.now ≤ 2 ^ 32 }
    ensures { result ≡ judged (refusal false criteria.now) }
{
    judge(criteria, false)
}

/// Whether a list of names to remove is taken. It takes no memory.
pub(crate) fn judge_names(names: &[Name]) -> Result<(), PropertyFault>
    requires { length names.now ≤ 2 ^ 32 }
    ensures { result ≡ judged (refusal_of_names names.now) }
{
    match first_wrong(names) {
        None => Ok(()),
        Some(place) => Err(PropertyFault::InvalidProperty {
            place: place as u32,
        }),
    }
}
