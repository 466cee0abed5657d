//! The group that a reference names.
ghost use Rattle.std.specs.Prelude.{◌≡◌, ◌<◌, ◌≤◌, length, option_map, IfOk, IfSome, MatchResult, Ok};
ghost use Rattle.std.specs.List.{list_any};
ghost use Rattle.cdr_codec.specs.Calls.{field_fault, Tells, Refuses};
ghost use Rattle.iogr_reference.specs.Formats.{AreShort};
ghost use Rattle.iogr_reference.specs.Groups.{marked, iiops_of, first_tag, is_tag, lacks_tag, unequal_place, primaries, primary_place, tag_of, group_among, group_of};
ghost use Rattle.iogr_reference.specs.Faults.{ref_refusal};
ghost use Rattle.iogr_reference.specs.Naming.{NamesGroup};
ghost use Rattle.iogr_reference.specs.declared.references.GroupRef.{GroupRef as AGroup};
ghost use Rattle.iogr_reference.specs.declared.insides.Mark.{Mark as AMark};

use crate::choices::PROFILE_LIMIT;
use crate::faults::{IorFault, RefFault};
use crate::insides::{Mark, iiop_inside, mark_in};
use crate::lists::IiopList;
use crate::references::{GroupRef, GroupTag, Iiop, Ior, Profile};
use crate::tags::IIOP_TAG;
use ft_base::Bytes;
use std::alloc::Global;

/// The IIOP profiles of a reference, and beside each what it says of its group.
#[derive(Drop)]
struct Gathered {
    iiops: Vec<Iiop>,
    marks: Vec<Mark>,
}

fn gather(alloc: Global, profiles: &[Profile]) -> Result<Gathered, IorFault>
    requires { AreShort profiles.now }
    ensures read { Tells (λ g. marked g.iiops.items g.marks.items) field_fault result (iiops_of profiles.now) }
    ensures beside { IfOk result (λ g. length g.iiops.items ≡ length g.marks.items) }
{
    let mut iiops = Vec::new(alloc);
    let mut marks = Vec::new(alloc);
    for one in profiles {
        if one.tag != IIOP_TAG {
            continue;
        }
        let iiop = iiop_inside(alloc, one.content.bytes())?;
        let mark = mark_in(alloc, iiop.components.as_slice())?;
        iiops.push(iiop)?;
        marks.push(mark)?;
    }
    Ok(Gathered { iiops, marks })
}

fn tag_of_first(marks: &[Mark]) -> Option<&GroupTag>
    ensures { option_map (λ tag. tag.now) result ≡ first_tag marks.now }
{
    match marks {
        [] => None,
        [first, ..] => first.group.as_ref(),
    }
}

fn has_tag(tag: &GroupTag, mark: &Mark) -> bool
    ensures { result ≡ is_tag tag.now mark.now.group }
{
    match &mark.group {
        None => false,
        Some(other) => {
            tag.domain.is(&other.domain)
                && tag.group.0 == other.group.0
                && tag.version.0 == other.version.0
        }
    }
}

fn some_lack(marks: &[Mark]) -> bool
    ensures { result ≡ list_any (λ (mark : AMark). lacks_tag mark.group) marks.now }
{
    marks.iter().any(|mark| mark.group.is_none())
}

fn first_unequal(tag: &GroupTag, marks: &[Mark]) -> Option<usize>
    ensures place { result ≡ unequal_place tag.now marks.now }
    ensures within { IfSome result (λ place. place < length marks.now) }
{
    marks.iter().position(|mark| !has_tag(tag, mark))
}

fn first_primary(marks: &[Mark]) -> Option<usize>
    ensures place { result ≡ primary_place marks.now }
    ensures within { IfSome result (λ place. place < length marks.now) }
{
    marks.iter().position(|mark| mark.primary)
}

fn count_primaries(marks: &[Mark]) -> usize
    ensures { result ≡ primaries marks.now }
{
    let mut count = 0;
    for mark in marks {
        if mark.primary {
            count += 1;
        }
    }
    count
}

/// The group component of all profiles.
fn judge(marks: &[Mark]) -> Result<&GroupTag, RefFault>
    ensures tag { MatchResult result (λ tag. tag_of marks.now ≡ Ok tag.now) (λ fault. tag_of marks.now ≡ Err fault) }
    ensures few { IfOk result (λ tag. length marks.now ≤ PROFILE_LIMIT) }
{
    let Some(tag) = tag_of_first(marks) else {
        return Err(RefFault::NotAGroup);
    };
    if marks.len() > PROFILE_LIMIT {
        return Err(RefFault::NotAGroup);
    }
    if some_lack(marks) {
        return Err(RefFault::NotAGroup);
    }
    if let Some(place) = first_unequal(tag, marks) {
        return Err(RefFault::Unequal(place as u16));
    }
    if count_primaries(marks) > 1 {
        return Err(RefFault::TwoPrimaries);
    }
    Ok(tag)
}

fn place_of_primary(marks: &[Mark]) -> Option<u16>
    requires { length marks.now ≤ PROFILE_LIMIT }
    ensures { result ≡ primary_place marks.now }
{
    match first_primary(marks) {
        None => None,
        Some(place) => Some(place as u16),
    }
}

fn group_with(alloc: Global, type_id: &Bytes, gathered: Gathered) -> Result<GroupRef, RefFault>
    requires { length gathered.iiops.items ≡ length gathered.marks.items }
    ensures { Tells (λ g. g) ref_refusal result (group_among type_id.now (Ok (marked gathered.iiops.items gathered.marks.items))) }
{
    let Gathered { iiops, marks } = gathered;
    let tag = judge(marks.as_slice())?;
    let domain = tag.domain.copy(alloc)?;
    let type_id = type_id.copy(alloc)?;
    Ok(GroupRef {
        domain,
        group: tag.group,
        version: tag.version,
        type_id,
        profiles: IiopList::from_vec(iiops),
        primary: place_of_primary(marks.as_slice()),
    })
}

fn group_in(alloc: Global, reference: &Ior) -> Result<GroupRef, RefFault>
    requires { AreShort reference.now.profiles }
    ensures { Tells (λ g. g) ref_refusal result (group_of reference.now) }
{
    let gathered = gather(alloc, reference.profiles.as_slice())?;
    group_with(alloc, &reference.type_id, gathered)
}

/// The group that a reference names. Profiles of other tags are passed over, and places count the
/// IIOP profiles alone.
pub fn group_ref_of(alloc: Global, reference: &Ior) -> Result<GroupRef, RefFault>
    requires { AreShort reference.now.profiles }
    ensures found { IfOk result (NamesGroup reference.now) }
    ensures refused { Refuses ref_refusal result ((group : AGroup) → NamesGroup reference.now group → ⊥) }
    ensures value { Tells (λ g. g) ref_refusal result (group_of reference.now) }
{
    group_in(alloc, reference)
}
