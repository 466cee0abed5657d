ghost use Rattle.std.specs.Prelude.{◌<◌, ◌^◌, length};

use crate::{FaultEvent, Filter, FilterFault, Notifier, NotifyFault, Sub};
use ft_base::{GroupId, HostNo, Name, NameFault, NoMemory};
use std::alloc::Global;

fn name(alloc: Global, text: &[u8]) -> Result<Name, NoMemory>
    requires { length text.now < 2 ^ 32 }
{
    match Name::of(alloc, text) {
        Ok(name) => Ok(name),
        Err(NameFault::NoMemory) => Err(NoMemory),
        Err(_) => Err(NoMemory),
    }
}

/// An event of a host and a group, of the type `IDL:a` or `IDL:b`.
fn event(alloc: Global, host: u8, type_id: &[u8; 5], group: u64) -> Result<FaultEvent, NoMemory> {
    Ok(FaultEvent {
        domain: name(alloc, b"ftc".as_slice())?,
        host: HostNo(host),
        type_id: name(alloc, type_id.as_slice())?,
        group: GroupId(group),
    })
}

fn filter(notifier: &Notifier, text: &[u8]) -> Result<Filter, NoMemory>
    requires { length text.now < 2 ^ 32 }
{
    match notifier.create_filter(text) {
        Ok(filter) => Ok(filter),
        Err(_) => Err(NoMemory),
    }
}

fn connected(notifier: &mut Notifier, text: &[u8]) -> Result<Sub, NoMemory>
    requires { length text.now < 2 ^ 32 }
{
    let filter = filter(notifier, text)?;
    match notifier.connect(filter) {
        Ok(sub) => Ok(sub),
        Err(_) => Err(NoMemory),
    }
}

/// Three events: at hosts 1 and 2 of group 7, and at host 3 of group 8, which is of another type.
fn pushed(alloc: Global, notifier: &mut Notifier) -> Result<bool, NoMemory> {
    let first = notifier.push(event(alloc, 1, b"IDL:a", 7)?);
    let second = notifier.push(event(alloc, 2, b"IDL:a", 7)?);
    let third = notifier.push(event(alloc, 3, b"IDL:b", 8)?);
    Ok(first.is_ok() && second.is_ok() && third.is_ok())
}

/// Whether a subscriber is told of events at these hosts, and of no more.
fn reads(notifier: &mut Notifier, sub: Sub, hosts: &[u8]) -> bool {
    for host in hosts {
        match notifier.pull(sub) {
            Ok(Some(event)) if event.host.0 == *host => {}
            _ => return false,
        }
    }
    match notifier.pull(sub) {
        Ok(None) => true,
        _ => false,
    }
}

fn is_refused(read: Result<Filter, FilterFault>, place: u32) -> bool {
    match read {
        Err(FilterFault::BadFilter(at)) => at == place,
        _ => false,
    }
}

// No text at all, and one with a zero byte.
#[test]
fn filters(rt: HostRuntime) -> Result<(), NoMemory> {
    let refused: [(&[u8], u32); 2] = [(b"", 0), (b"TypeId=a\0", 0)];
    let notifier = Notifier::new(rt.alloc());
    for (text, place) in refused.as_slice() {
        assert!(rt; is_refused(notifier.create_filter(text), *place));
    }
    Ok(())
}

#[test]
fn subscribers(rt: HostRuntime) -> Result<(), NoMemory> {
    let alloc = rt.alloc();
    let mut notifier = Notifier::new(alloc);
    let early = connected(&mut notifier, b"-".as_slice())?;
    assert!(rt; pushed(alloc, &mut notifier)?);
    // one that comes late isn't told of what was before it
    let late = connected(&mut notifier, b"-".as_slice())?;
    assert!(rt; reads(&mut notifier, late, b"".as_slice()));
    assert!(rt; reads(&mut notifier, early, b"\x01\x02\x03".as_slice()));
    // a subscription stays refused, also where its place is used again
    assert!(rt; notifier.disconnect(early).is_ok());
    let next = connected(&mut notifier, b"-".as_slice())?;
    assert!(rt; next.place == early.place && next.number == 3);
    assert_eq!(rt; notifier.disconnect(early), Err(NotifyFault::NoSubscriber));
    assert!(rt; notifier.pull(early).is_err());
    // two are there, and 1,022 more
    for _ in 0..1022 {
        let _sub = connected(&mut notifier, b"TypeId=IDL:b".as_slice())?;
    }
    let one_more = filter(&notifier, b"-".as_slice())?;
    assert_eq!(rt;
        notifier.connect(one_more).err(),
        Some(NotifyFault::Full(1024))
    );
    assert!(rt; pushed(alloc, &mut notifier)?);
    assert!(rt; reads(&mut notifier, next, b"\x01\x02\x03".as_slice()));
    Ok(())
}

// The 262,145th event is refused.
#[test]
fn a_full_notifier(rt: HostRuntime) -> Result<(), NoMemory> {
    let alloc = rt.alloc();
    let mut notifier = Notifier::new(alloc);
    for _ in 0..262_144 {
        let pushed = notifier.push(event(alloc, 1, b"IDL:a", 7)?);
        assert!(rt; pushed.is_ok());
    }
    let refused = notifier.push(event(alloc, 1, b"IDL:a", 7)?);
    assert_eq!(rt; refused, Err(NotifyFault::Full(262_144)));
    Ok(())
}
