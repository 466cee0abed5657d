//! The references that a client goes by.
ghost use Rattle.std.specs.Prelude.{◌≡◌, ◌+◌, ◌<◌, ◌≤◌, ◌++◌, ◌∷◌, [], false, length, take, drop, not, position, IfSome};
ghost use Rattle.std.specs.List.{filter, find, list_any};
ghost use Rattle.std.specs.Option.{option_to_list};
ghost use Rattle.std.specs.VecDeque.{deque_len, deque_capacity};
ghost use Rattle.iogr_reference.specs.declared.references.GroupRef.{GroupRef as AReference};
ghost use Rattle.script_clients.specs.Clients.{is_of};

use ft_base::GroupId;
use iogr_reference::GroupRef;
use std::collections::VecDeque;

/// Pushes where there is room.
fn push_within(references: &mut VecDeque<GroupRef>, reference: GroupRef)
    requires { deque_len references.old < deque_capacity references.old }
    ensures items { references.new.items ≡ references.old.items ++ reference ∷ [] }
    ensures len { deque_len references.new ≡ deque_len references.old + 1 }
    ensures capacity { deque_capacity references.old ≤ deque_capacity references.new }
{
    match references.push_back(reference) {
        Ok(()) => {}
        Err(_) => unreachable!(),
    }
}

fn is_of(group: GroupId, reference: &GroupRef) -> bool
    ensures { result ≡ is_of group reference.now }
{
    reference.group.0 == group.0
}

fn has_any(references: &[GroupRef], group: GroupId) -> bool
    ensures { result ≡ list_any (λ (r : AReference). is_of group r) references.now }
{
    references.iter().any(|reference| is_of(group, reference))
}

/// Those from a place on.
#[tactic(auto, using(std::proofs::lemmas::List::drop_min))]
fn behind(references: &[GroupRef], place: usize) -> &[GroupRef]
    ensures { result.now ≡ drop place references.now }
{
    &references[place.min(references.len())..]
}

fn place_of(references: &[GroupRef], group: GroupId) -> Option<usize>
    ensures place { result ≡ position (λ (r : AReference). is_of group r) references.now }
    ensures within { IfSome result (λ place. place < length references.now) }
{
    references
        .iter()
        .position(|reference| is_of(group, reference))
}

/// The place of the first that is of this group.
fn place_in(references: &VecDeque<GroupRef>, group: GroupId) -> Option<usize>
    ensures { result ≡ position (λ (r : AReference). is_of group r) references.now.items }
{
    let (front, back) = references.as_slices();
    match place_of(front, group) {
        Some(place) => Some(place),
        None => match place_of(back, group) {
            Some(place) => Some(front.len() + place),
            None => None,
        },
    }
}

/// Whether any from this place on is of this group.
fn has_any_from(references: &VecDeque<GroupRef>, group: GroupId, place: usize) -> bool
    ensures { result ≡ list_any (λ (r : AReference). is_of group r) (drop place references.now.items) }
{
    let (front, back) = references.as_slices();
    has_any(behind(front, place), group)
        || has_any(behind(back, place.saturating_sub(front.len())), group)
}

/// Lets go of those that are of this group. In front of this place none is.
fn drop_from(references: &mut VecDeque<GroupRef>, group: GroupId, place: usize)
    requires { list_any (λ (r : AReference). is_of group r) (take place references.old.items) ≡ false }
    ensures items { references.new.items ≡ filter (λ (r : AReference). not (is_of group r)) references.old.items }
    ensures len { deque_len references.new ≤ deque_len references.old }
    ensures capacity { deque_capacity references.new ≡ deque_capacity references.old }
{
    // mostly there is none, and then nothing is written
    if has_any_from(references, group, place) {
        references.retain(|reference| !is_of(group, reference));
    }
}

/// Takes out what is of a group, and gives the first of it.
fn take_from(references: &mut VecDeque<GroupRef>, group: GroupId) -> Option<GroupRef>
    ensures first { result ≡ find (λ (r : AReference). is_of group r) references.old.items }
    ensures rest { references.new.items ≡ filter (λ (r : AReference). not (is_of group r)) references.old.items }
    ensures len { deque_len references.new ≤ deque_len references.old }
    ensures capacity { deque_capacity references.new ≡ deque_capacity references.old }
{
    match place_in(references, group) {
        None => None,
        Some(place) => {
            let first = references.remove(place);
            drop_from(references, group, place);
            first
        }
    }
}

/// The same with the reference that the last invocation went by. It comes first, and where it is of another
/// group, it is kept behind the others, for which there is room.
pub(crate) fn take_known(
    others: &mut VecDeque<GroupRef>,
    last: Option<GroupRef>,
    group: GroupId,
) -> Option<GroupRef>
    requires { deque_len others.old < deque_capacity others.old }
    ensures first { result ≡ find (λ (r : AReference). is_of group r) (option_to_list last ++ others.old.items) }
    ensures rest { others.new.items ≡ filter (λ (r : AReference). not (is_of group r)) (others.old.items ++ option_to_list last) }
    ensures len { deque_len others.new ≤ deque_len others.old + 1 }
    ensures capacity { deque_capacity others.old ≤ deque_capacity others.new }
{
    let first = take_from(others, group);
    let Some(last) = last else {
        return first;
    };
    if is_of(group, &last) {
        return Some(last);
    }
    push_within(others, last);
    first
}

/// Keeps this reference, behind the others and in the place of all of its group. There is room for it and the
/// last.
pub(crate) fn put_known(
    others: &mut VecDeque<GroupRef>,
    last: Option<GroupRef>,
    reference: GroupRef,
)
    requires { deque_len others.old + 2 ≤ deque_capacity others.old }
    ensures { others.new.items ≡ filter (λ (r : AReference). not (is_of reference.group r)) (others.old.items ++ option_to_list last) ++ reference ∷ [] }
{
    let _ = take_known(others, last, reference.group);
    push_within(others, reference);
}
