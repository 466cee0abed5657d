ghost use Rattle.std.specs.Prelude.{◌≡◌, IfOk};
ghost use Rattle.shipped_servants.specs.Kinds.{kind_with, type_id};

use ft_base::{Name, NoMemory};
use std::alloc::Global;

/// A kind of servant that is shipped.
#[derive(Clone, Copy, Debug, PartialEq, Eq)]
pub enum Kind {
    Account,
    Store,
    Queue,
}

impl Kind {
    /// The repository id of the kind's type.
    pub fn type_id(self) -> &'static [u8]
        ensures { result.now ≡ type_id self }
    {
        match self {
            Kind::Account => b"IDL:ftc/Account:1.0",
            Kind::Store => b"IDL:ftc/Store:1.0",
            Kind::Queue => b"IDL:ftc/Queue:1.0",
        }
    }

    /// The type id, as a name.
    pub fn type_name(self, alloc: Global) -> Result<Name, NoMemory>
        ensures { IfOk result (λ name. name ≡ type_id self) }
    {
        match Name::of(alloc, self.type_id()) {
            Ok(name) => Ok(name),
            Err(_) => Err(NoMemory),
        }
    }

    /// The kind with this type id.
    pub fn with_type_id(id: &[u8]) -> Option<Kind>
        ensures { result ≡ kind_with id.now }
    {
        if id == Kind::Account.type_id() {
            return Some(Kind::Account);
        }
        if id == Kind::Store.type_id() {
            return Some(Kind::Store);
        }
        if id == Kind::Queue.type_id() {
            return Some(Kind::Queue);
        }
        None
    }
}
