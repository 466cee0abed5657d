ghost use Rattle.std.specs.Prelude.{◌≤◌, length, IfOk};

use crate::{CreateFault, CreationId, Factory, ObjectNotFound};
use ft_base::{Bytes, Members, Name, NoMemory};
use property_manager::{Property, PropertyValue};
use shipped_servants::Shipped;
use std::alloc::Global;

// A property's name and its value.
type Row = (&'static [u8], &'static [u8]);

const STORE: &[u8] = b"IDL:ftc/Store:1.0";

fn name(alloc: Global, text: &[u8]) -> Result<Name, NoMemory> {
    if text.len() > 255 {
        return Err(NoMemory);
    }
    match Name::of(alloc, text) {
        Ok(name) => Ok(name),
        Err(_) => Err(NoMemory),
    }
}

fn property(alloc: Global, row: &Row) -> Result<Property, NoMemory> {
    let (text, value) = row;
    Ok(Property {
        name: name(alloc, text)?,
        value: PropertyValue(Bytes::of(alloc, value)?),
    })
}

fn two(alloc: Global, first: &Row, second: &Row) -> Result<Vec<Property>, NoMemory>
    ensures { IfOk result (λ list. length list.items ≤ 2) }
{
    let mut list = Vec::new(alloc);
    list.push(property(alloc, first)?)?;
    list.push(property(alloc, second)?)?;
    Ok(list)
}

/// What creating an object of a type with two criteria answers, where it is refused; no host fits.
fn refused(
    alloc: Global,
    factory: &mut Factory,
    type_id: &[u8],
    first: &Row,
    second: &Row,
) -> Result<Option<CreateFault>, NoMemory> {
    let type_id = name(alloc, type_id)?;
    let criteria = two(alloc, first, second)?;
    Ok(
        factory
            .create_object(alloc, &type_id, criteria.as_slice(), &Members::new())
            .err(),
    )
}

fn is_store(servant: &Shipped) -> bool {
    matches!(servant, Shipped::Store(_))
}

fn made(alloc: Global, factory: &mut Factory, type_id: &Name) -> Result<CreationId, CreateFault> {
    let criteria: Vec<Property> = Vec::new(alloc);
    match factory.create_object(alloc, type_id, criteria.as_slice(), &Members::new()) {
        Err(fault) => Err(fault),
        Ok(made) => {
            let (servant, id) = made;
            if is_store(&servant) {
                Ok(id)
            } else {
                Err(CreateFault::NoFactory)
            }
        }
    }
}

#[test]
fn create_refusals(rt: HostRuntime) -> Result<(), NoMemory> {
    let alloc = rt.alloc();
    let mut factory = Factory::new(alloc);
    let none: Row = (b"org.omg.ft.Nothing", b"1");
    let stateless: Row = (b"org.omg.ft.ReplicationStyle", b"STATELESS");
    let initial: Row = (b"org.omg.ft.InitialNumberReplicas", b"2");
    let minimum: Row = (b"org.omg.ft.MinimumNumberReplicas", b"3");
    let style: Row = (b"org.omg.ft.ReplicationStyle", b"ACTIVE");
    let infrastructure: Row = (b"org.omg.ft.MembershipStyle", b"MEMB_INF_CTRL");
    let clock = b"IDL:ftc/Clock:1.0".as_slice();
    let below = CreateFault::CannotMeetCriteria {
        initial: 2,
        minimum: 3,
    };
    let built_in = CreateFault::CannotMeetCriteria {
        initial: 1,
        minimum: 3,
    };
    assert!(rt;
        refused(alloc, &mut factory, clock, &none, &stateless)? == Some(CreateFault::NoFactory)
    );
    assert!(rt;
        refused(alloc, &mut factory, STORE, &stateless, &none)?
            == Some(CreateFault::InvalidCriteria(1))
    );
    assert!(rt;
        refused(alloc, &mut factory, STORE, &minimum, &stateless)?
            == Some(CreateFault::UnsupportedProperty(1))
    );
    assert!(rt; refused(alloc, &mut factory, STORE, &minimum, &initial)? == Some(below));
    assert!(rt; refused(alloc, &mut factory, STORE, &minimum, &style)? == Some(built_in));
    assert!(rt; refused(alloc, &mut factory, STORE, &minimum, &infrastructure)? == Some(built_in));
    assert!(rt;
        refused(alloc, &mut factory, STORE, &initial, &infrastructure)?
            == Some(CreateFault::TooFew { fit: 0, minimum: 1 })
    );
    assert!(rt; refused(alloc, &mut factory, STORE, &initial, &style)?.is_none());
    assert_eq!(rt; factory.len(), 1);
    Ok(())
}

#[test]
fn objects_come_and_go(rt: HostRuntime) -> Result<(), CreateFault> {
    let alloc = rt.alloc();
    let store = name(alloc, STORE)?;
    let mut factory = Factory::new(alloc);
    let first = made(alloc, &mut factory, &store)?;
    for _ in 0..4095 {
        let _id = made(alloc, &mut factory, &store)?;
    }
    assert_eq!(rt;
        made(alloc, &mut factory, &store).err(),
        Some(CreateFault::ObjectNotCreated(4096))
    );
    assert_eq!(rt; factory.delete_object(first), Ok(()));
    assert_eq!(rt; factory.delete_object(first), Err(ObjectNotFound));
    assert!(rt; made(alloc, &mut factory, &store).is_ok());
    Ok(())
}
