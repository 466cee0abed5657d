//! Replies to a client, also those that no host of a script sends.
use client_retry::{Act, ClientCore, End, Heard};
use ft_base::{Bytes, GroupId, Name, NoMemory, Outcome, Tick, Version};
use iogr_reference::{Components, GroupRef, Iiop, IiopList};
use std::alloc::Global;
use std::test::Fail;
use sys_faults::{Completed, SysFault, SysKind};

fn profile(alloc: Global) -> Result<Iiop, NoMemory> {
    Ok(Iiop {
        minor: 2,
        host: Bytes::of(alloc, b"127.0.0.1")?,
        port: 2000,
        key: Bytes::of(alloc, b"FTOG")?,
        components: Components::from_vec(Vec::new(alloc)),
    })
}

/// A reference of this version, with two profiles or none.
fn group(
    alloc: Global,
    version: u32,
    profiles: u8,
    primary: Option<u16>,
) -> Result<GroupRef, NoMemory> {
    let iiops = match profiles {
        0 => Vec::new(alloc),
        _ => Vec::from_array(alloc, [profile(alloc)?, profile(alloc)?])?,
    };
    Ok(GroupRef {
        domain: Bytes::of(alloc, b"ftc")?,
        group: GroupId(1),
        version: Version(version),
        type_id: Bytes::of(alloc, b"IDL:ftc/Account:1.0")?,
        profiles: IiopList::from_vec(iiops),
        primary,
    })
}

/// An act in short, with its two numbers.
fn shown(act: &Act) -> (&'static str, u64, u64) {
    match act {
        Act::Send { place, id } => ("send", *place as u64, *id as u64),
        Act::Adopted { place, id, .. } => ("adopted", *place as u64, *id as u64),
        Act::Nothing => ("nothing", 0, 0),
        Act::Done(End::Outcome(_)) => ("outcome", 0, 0),
        Act::Done(End::System(_)) => ("system", 0, 0),
        Act::Done(End::NoResponse { expiration, now }) => ("no response", expiration.0, now.0),
        Act::Done(End::Transient { faults, profiles }) => {
            ("transient", *faults as u64, *profiles as u64)
        }
        Act::Done(End::IdsSpent) => ("spent", 0, 0),
    }
}

fn exception(kind: SysKind) -> Heard {
    Heard::System(SysFault {
        kind,
        minor: 1,
        completed: Completed::Yes,
    })
}

/// What a reply says, by a name.
fn heard(alloc: Global, name: &'static str) -> Result<Heard, NoMemory> {
    let heard = match name {
        "COMM_FAILURE" => exception(SysKind::CommFailure),
        "TRANSIENT" => exception(SysKind::Transient),
        "NO_RESPONSE" => exception(SysKind::NoResponse),
        "OBJ_ADAPTER" => exception(SysKind::ObjAdapter),
        "BAD_CONTEXT" => exception(SysKind::BadContext),
        "NO_MEMORY" => exception(SysKind::NoMemory),
        "older" => Heard::Forward(group(alloc, 1, 2, None)?),
        "equal" => Heard::Forward(group(alloc, 2, 2, None)?),
        "newer" => Heard::Forward(group(alloc, 3, 2, Some(1))?),
        "empty" => Heard::Forward(group(alloc, 3, 0, None)?),
        "unreadable" => Heard::Unreadable,
        _ => Heard::Outcome(Outcome::Value(Bytes::of(alloc, b"\x05")?)),
    };
    Ok(heard)
}

// Each kind of reply to the last attempt, and to an earlier one.
#[test]
fn replies(rt: HostRuntime) -> Result<(), Fail> {
    let nothing = ("nothing", 0, 0);
    let rows = [
        ("value", ("outcome", 0, 0), ("outcome", 0, 0)),
        ("COMM_FAILURE", ("send", 0, 3), nothing),
        ("TRANSIENT", ("send", 0, 3), nothing),
        ("NO_RESPONSE", ("send", 0, 3), nothing),
        ("OBJ_ADAPTER", ("send", 0, 3), nothing),
        ("BAD_CONTEXT", ("system", 0, 0), ("system", 0, 0)),
        ("NO_MEMORY", ("system", 0, 0), ("system", 0, 0)),
        ("older", ("send", 0, 3), nothing),
        ("equal", ("send", 0, 3), nothing),
        ("newer", ("adopted", 1, 3), ("adopted", 1, 3)),
        ("empty", ("transient", 0, 0), ("transient", 0, 0)),
        ("unreadable", ("send", 0, 3), nothing),
    ];
    for (name, to_last, to_first) in rows {
        for (id, want) in [(0, nothing), (1, to_first), (2, to_last), (3, nothing)] {
            let mut client = ClientCore::new();
            let _sent = client.start(group(rt.alloc(), 2, 2, Some(0))?, Tick(10));
            let _sent_again = client.fault(Tick(0));
            let act = client.reply(id, heard(rt.alloc(), name)?, Tick(0));
            assert!(rt; shown(&act) == want, "{name} to {id}");
        }
    }
    Ok(())
}
