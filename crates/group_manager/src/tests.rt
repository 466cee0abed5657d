//! Changes of groups that have had nearly all views that there can be, a row for each refusal; and the
//! directory.
ghost use Rattle.std.specs.Prelude.{◌≡◌, ◌≤◌, ◌∷◌, [], length, IfOk};
ghost use Rattle.ft_base.specs.Members.{AreDifferent};
ghost use Rattle.iogr_reference.specs.Formats.{AreShort};

use crate::{Groups, changed};
use ft_base::{GroupId, HostNo, MEMBER_LIMIT, Members, Name, NoMemory, Style, Version, View};
use group_model::{Change, ManageFault};
use iogr_reference::{Ior, Ports, RefFault, group_ref_of};
use std::alloc::Global;
use std::process::Abort;

// A version, members and a primary.
type Seen = (u32, &'static [u8], Option<u8>);

fn host_of(host: Option<u8>) -> Option<HostNo> {
    match host {
        None => None,
        Some(host) => Some(HostNo(host)),
    }
}

#[tactic(auto, using(crate::proofs::OneByOne::joined_differ))]
fn join_new(members: &mut Members, host: HostNo)
    ensures { AreDifferent members.old → AreDifferent members.new }
{
    if members.len() >= MEMBER_LIMIT || members.has(host) {
        return;
    }
    members.join(host);
}

/// A view of these members.
fn view_of(seen: &Seen) -> View
    ensures { AreDifferent result.members }
{
    let (version, hosts, primary) = seen;
    let mut members = Members::new();
    for host in *hosts {
        join_new(&mut members, HostNo(*host));
    }
    View {
        version: Version(*version),
        members,
        primary: host_of(*primary),
    }
}

fn is_seen(view: &View, seen: &Seen) -> bool {
    let (version, hosts, primary) = seen;
    view.version.0 == *version
        && view.members.hosts() == *hosts
        && view.primary == host_of(*primary)
}

// A style, a view, a change; the next view or the refusal.
type Row = (Style, Seen, Change, Result<Seen, ManageFault>);

const ALL: &[u8] = &[0, 1, 2, 3, 4, 5, 6, 7, 8, 9, 10, 11, 12, 13, 14, 15];

const FULL: Seen = (65_536, ALL, Some(0));

const LAST: Seen = (65_536, &[4, 5, 6], Some(4));

const H: HostNo = HostNo(4);

const OTHER: HostNo = HostNo(20);

// In the order in which the causes are looked at. Each change but the last two meets later causes too, since there have
// been as many views as there can be; and the one that leads there.
const ROWS: [Row; 13] = [
    (
        Style::Active,
        FULL,
        Change::Create {
            host: H,
            listed: false,
            made: false,
        },
        Err(ManageFault::NoFactory(H)),
    ),
    (
        Style::Active,
        FULL,
        Change::Create {
            host: H,
            listed: true,
            made: false,
        },
        Err(ManageFault::MemberAlreadyPresent(H)),
    ),
    (
        Style::Cold,
        FULL,
        Change::Add(H),
        Err(ManageFault::MemberAlreadyPresent(H)),
    ),
    (
        Style::Warm,
        FULL,
        Change::Create {
            host: OTHER,
            listed: true,
            made: false,
        },
        Err(ManageFault::ObjectNotAdded(16)),
    ),
    (
        Style::Warm,
        FULL,
        Change::Add(OTHER),
        Err(ManageFault::ObjectNotAdded(16)),
    ),
    (
        Style::Warm,
        LAST,
        Change::Create {
            host: OTHER,
            listed: true,
            made: false,
        },
        Err(ManageFault::ObjectNotCreated(OTHER)),
    ),
    (
        Style::Active,
        LAST,
        Change::Primary(OTHER),
        Err(ManageFault::BadReplicationStyle),
    ),
    (
        Style::Cold,
        LAST,
        Change::Primary(OTHER),
        Err(ManageFault::MemberNotFound(OTHER)),
    ),
    (
        Style::Active,
        LAST,
        Change::Remove(OTHER),
        Err(ManageFault::MemberNotFound(OTHER)),
    ),
    (
        Style::Active,
        LAST,
        Change::Report(OTHER),
        Err(ManageFault::MemberNotFound(OTHER)),
    ),
    (
        Style::Warm,
        LAST,
        Change::Primary(H),
        Err(ManageFault::PrimaryNotSet(H)),
    ),
    (
        Style::Warm,
        LAST,
        Change::Report(H),
        Err(ManageFault::ViewsFull(65_536)),
    ),
    (
        Style::Cold,
        (65_535, &[4], Some(4)),
        Change::Remove(H),
        Ok((65_536, &[], None)),
    ),
];

const PASSIVE: Seen = (7, &[4, 5, 6], Some(4));

#[test]
fn changes(rt: HostRuntime) {
    for (style, seen, change, wanted) in &ROWS {
        match changed(&view_of(seen), *style, change) {
            Ok(view) => assert!(rt;
                matches!(wanted, Ok(next) if is_seen(&view, next)),
                "{change:?}"
            ),
            Err(fault) => assert!(rt;
                matches!(wanted, Err(why) if fault == *why),
                "{change:?}: {fault}"
            ),
        }
    }
}

// A style, a view, the host that is replaced, the spares, and the next view.
type Replaced = (Style, Seen, u8, &'static [u8], Seen);

// No spare, one, and three; a member, the host itself, and one that finds no room.
const REPLACED: [Replaced; 8] = [
    (Style::Cold, PASSIVE, 4, &[], (8, &[5, 6], Some(5))),
    (Style::Warm, PASSIVE, 5, &[9], (8, &[4, 6, 9], Some(4))),
    (Style::Cold, (7, &[4], Some(4)), 4, &[4], (8, &[], None)),
    (
        Style::Warm,
        (7, &[4], Some(4)),
        4,
        &[4, 9, 8],
        (8, &[9, 8], Some(9)),
    ),
    (Style::Active, ACTIVE, 4, &[], (8, &[5, 6], None)),
    (Style::Active, ACTIVE, 5, &[9], (8, &[4, 6, 9], None)),
    (Style::Active, ACTIVE, 4, &[5, 4, 9], (8, &[5, 6, 9], None)),
    (
        Style::Active,
        (7, ALL, None),
        0,
        &[20, 21, 22],
        (8, REST, None),
    ),
];

const ACTIVE: Seen = (7, &[4, 5, 6], None);

const REST: &[u8] = &[1, 2, 3, 4, 5, 6, 7, 8, 9, 10, 11, 12, 13, 14, 15, 20];

/// The host is replaced by these spares.
fn replacing(host: HostNo, hosts: &[u8]) -> Change {
    let mut spares = Members::new();
    for spare in hosts {
        join_new(&mut spares, HostNo(*spare));
    }
    Change::Replace { host, spares }
}

#[test]
fn spares_replace_a_host(rt: HostRuntime) {
    for (style, seen, host, spares, next) in &REPLACED {
        let made = changed(&view_of(seen), *style, &replacing(HostNo(*host), spares));
        assert!(rt;
            matches!(made, Ok(view) if is_seen(&view, next)),
            "{host} {spares:?}"
        );
    }
    let none = changed(&view_of(&LAST), Style::Cold, &replacing(OTHER, &[1]));
    assert!(rt; matches!(none, Err(ManageFault::MemberNotFound(OTHER))));
    let full = changed(&view_of(&LAST), Style::Cold, &replacing(H, &[1]));
    assert!(rt; matches!(full, Err(ManageFault::ViewsFull(65_536))));
}

fn type_id(alloc: Global) -> Result<Name, NoMemory> {
    match Name::of(alloc, b"IDL:ftc/Store:1.0") {
        Ok(name) => Ok(name),
        Err(_) => Err(NoMemory),
    }
}

/// Two groups, of which the first is deleted, and one more.
fn filled(rt: &impl Abort, alloc: Global) -> Result<Groups, NoMemory> {
    let mut groups = Groups::new(alloc);
    let first = groups.add(type_id(alloc)?, Style::Cold)?;
    let second = groups.add(type_id(alloc)?, Style::Active)?;
    assert!(rt; groups.delete(first).is_ok());
    let third = groups.add(type_id(alloc)?, Style::Warm)?;
    assert_eq!(rt; (first.0, second.0, third.0), (1, 2, 3));
    Ok(groups)
}

const GONE: [u64; 4] = [0, 1, 4, u64::MAX];

#[test]
fn groups_are_found(rt: HostRuntime) -> Result<(), NoMemory> {
    let mut groups = filled(&rt, rt.alloc())?;
    let view = view_of(&PASSIVE);
    for gone in &GONE {
        let group = GroupId(*gone);
        assert!(rt; groups.find(group).is_err());
        assert!(rt; groups.delete(group).is_err());
        assert!(rt; groups.add_member(group, &view, Style::Warm, OTHER).is_err());
    }
    assert!(rt; matches!(groups.find(GroupId(2)), Ok(info) if info.style == Style::Active));
    assert!(rt;
        matches!(groups.report(GroupId(3), &view, Style::Warm, H), Ok(next) if is_seen(&next, &(8, &[5, 6], Some(5))))
    );
    assert!(rt;
        matches!(
            groups.set_primary_member(GroupId(3), &view, Style::Warm, H),
            Err(ManageFault::PrimaryNotSet(_))
        )
    );
    Ok(())
}

/// The view of hosts 0 and 1.
fn pair() -> View
    ensures { result.members ≡ 0 ∷ 1 ∷ [] }
{
    let mut members = Members::new();
    members.join(HostNo(0));
    members.join(HostNo(1));
    View {
        version: Version(5),
        members,
        primary: Some(HostNo(1)),
    }
}

fn ports(alloc: Global) -> Result<Ports, NoMemory>
    ensures { IfOk result (λ ports. 2 ≤ length ports) }
{
    let mut ports = Vec::new(alloc);
    ports.push(2000)?;
    ports.push(2001)?;
    Ok(Ports::from_vec(ports))
}

fn group_named(alloc: Global, reference: &Ior) -> Result<u64, RefFault>
    requires { AreShort reference.now.profiles }
{
    match group_ref_of(alloc, reference) {
        Ok(named) => Ok(named.group.0),
        Err(fault) => Err(fault),
    }
}

fn references(rt: &impl Abort, alloc: Global) -> Result<(), NoMemory> {
    let groups = filled(rt, alloc)?;
    let view = pair();
    let ports = ports(alloc)?;
    match groups.get_object_group_ref(alloc, GroupId(3), &view, &ports) {
        Ok(reference) => assert!(rt; matches!(group_named(alloc, &reference), Ok(3))),
        Err(_) => return Err(NoMemory),
    }
    match groups.get_member_ref(alloc, GroupId(3), &view, HostNo(1), &ports) {
        Ok(reference) => assert!(rt;
            matches!(group_named(alloc, &reference), Err(RefFault::NotAGroup))
        ),
        Err(_) => return Err(NoMemory),
    }
    let none = groups.get_member_ref(alloc, GroupId(3), &view, HostNo(2), &ports);
    assert!(rt; matches!(none, Err(ManageFault::MemberNotFound(_))));
    Ok(())
}

#[test]
fn groups_have_references(rt: HostRuntime) -> Result<(), NoMemory> {
    references(&rt, rt.alloc())
}
