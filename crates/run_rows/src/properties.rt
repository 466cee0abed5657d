//! Lists of several properties at once, which no line of a script sets.
ghost use Rattle.std.specs.Prelude.{◌≡◌, ◌≤◌, length, IfOk};

use ft_base::{Bytes, GroupId, Name, NoMemory};
use property_manager::{Property, PropertyFault, PropertyManager, PropertyValue};
use std::alloc::Global;

// A property's name, and its value.
type Row = (&'static [u8], &'static [u8]);

fn name(alloc: Global, text: &[u8]) -> Result<Name, NoMemory> {
    if text.len() > 255 {
        return Err(NoMemory);
    }
    match Name::of(alloc, text) {
        Ok(name) => Ok(name),
        Err(_) => Err(NoMemory),
    }
}

fn property(alloc: Global, row: &Row) -> Result<Property, NoMemory> {
    let (text, value) = row;
    Ok(Property {
        name: name(alloc, text)?,
        value: PropertyValue(Bytes::of(alloc, value)?),
    })
}

fn two(alloc: Global, first: &Row, second: &Row) -> Result<Vec<Property>, NoMemory>
    ensures { IfOk result (λ list. length list.items ≤ 2) }
{
    let mut list = Vec::new(alloc);
    list.push(property(alloc, first)?)?;
    list.push(property(alloc, second)?)?;
    Ok(list)
}

/// Whether a list of two is refused so, for all groups and for one that runs.
fn are_refused(
    alloc: Global,
    manager: &mut PropertyManager,
    first: &Row,
    second: &Row,
    default: Option<PropertyFault>,
    dynamic: Option<PropertyFault>,
) -> bool {
    match two(alloc, first, second) {
        Err(_) => false,
        Ok(list) => {
            let of_all = manager.set_default_properties(alloc, list.as_slice()).err();
            let of_one = manager
                .set_properties_dynamically(alloc, GroupId(1), list.as_slice())
                .err();
            of_all == default && of_one == dynamic
        }
    }
}

#[test]
fn the_first_place_at_fault(rt: HostRuntime) -> Result<(), NoMemory> {
    let alloc = rt.alloc();
    let account = name(alloc, b"IDL:ftc/Account:1.0".as_slice())?;
    let mut manager = PropertyManager::new(alloc);
    let nothing: Vec<Property> = Vec::new(alloc);
    let adopted = manager.adopt(alloc, GroupId(1), &account, nothing.as_slice());
    assert!(rt; adopted.is_ok());
    let style: Row = (b"org.omg.ft.ReplicationStyle", b"ACTIVE");
    let stateless: Row = (b"org.omg.ft.ReplicationStyle", b"STATELESS");
    let minimum: Row = (b"org.omg.ft.MinimumNumberReplicas", b"16");
    let unknown: Row = (b"org.omg.ft.Nothing", b"1");
    let invalid = Some(PropertyFault::InvalidProperty { place: 1 });
    let unsupported = Some(PropertyFault::UnsupportedProperty { place: 0 });
    assert!(rt; are_refused(alloc, &mut manager, &style, &minimum, None, unsupported));
    assert!(rt;
        are_refused(
            alloc,
            &mut manager,
            &stateless,
            &minimum,
            unsupported,
            unsupported
        )
    );
    assert!(rt; are_refused(alloc, &mut manager, &stateless, &unknown, invalid, invalid));
    assert!(rt; are_refused(alloc, &mut manager, &minimum, &minimum, invalid, invalid));
    Ok(())
}
