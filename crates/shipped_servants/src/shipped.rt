ghost use Rattle.std.specs.Prelude.{◌≡◌, IfOk};
ghost use Rattle.shipped_servants.specs.Kinds as kinds;
ghost use Rattle.shipped_servants.specs.Laws as laws;

use crate::kinds::Kind;
use ft_base::{
    Bytes, Name, NoMemory, Outcome, Request, Servant, Signature, StateFault, Steps, UpdateFault,
    ValueServant,
};
use servant_account::Account;
use servant_queue::Queue;
use servant_store::Store;
use std::alloc::Global;
use std::sync::ledger::Ledger;

/// A servant of any kind that is shipped.
#[derive(Drop)]
pub enum Shipped {
    Account(ValueServant<Account>),
    Store(ValueServant<Store>),
    Queue(ValueServant<Queue>),
}

impl Shipped {
    /// A servant of this kind in its opening state.
    pub fn open(alloc: Global, kind: Kind) -> Result<Shipped, NoMemory>
        ensures kind { IfOk result (λ servant. kinds.kind_of servant ≡ kinds.number_of kind) }
        ensures state { IfOk result (λ servant. kinds.state_of_shipped servant ≡ kinds.opening_of kind) }
    {
        match kind {
            Kind::Account => Ok(Shipped::Account(ValueServant::new(Account::new(0)))),
            Kind::Store => Ok(Shipped::Store(ValueServant::new(Store::new(alloc)))),
            Kind::Queue => {
                let queue = Queue::new(alloc)?;
                Ok(Shipped::Queue(ValueServant::new(queue)))
            }
        }
    }
}

/// Each call is that of the servant's kind.
impl Servant for Shipped {
    ghost machine = { kinds.machine_of_kind };

    ghost kind = { kinds.kind_of };

    ghost state = { kinds.state_of_shipped };

    fn signature(&self, op: &Name) -> Option<Signature> {
        match self {
            Shipped::Account(servant) => servant.signature(op),
            Shipped::Store(servant) => servant.signature(op),
            Shipped::Queue(servant) => servant.signature(op),
        }
    }

    fn invoke<L: Ledger>(
        &mut self,
        alloc: Global,
        request: &Request,
        steps: &mut Steps<L>,
    ) -> Result<Outcome, NoMemory> {
        match self {
            Shipped::Account(servant) => servant.invoke(alloc, request, steps),
            Shipped::Store(servant) => servant.invoke(alloc, request, steps),
            Shipped::Queue(servant) => servant.invoke(alloc, request, steps),
        }
    }

    fn get_state(&self, alloc: Global) -> Result<Bytes, NoMemory> {
        match self {
            Shipped::Account(servant) => servant.get_state(alloc),
            Shipped::Store(servant) => servant.get_state(alloc),
            Shipped::Queue(servant) => servant.get_state(alloc),
        }
    }

    fn set_state(&mut self, alloc: Global, bytes: &Bytes) -> Result<(), StateFault> {
        match self {
            Shipped::Account(servant) => servant.set_state(alloc, bytes),
            Shipped::Store(servant) => servant.set_state(alloc, bytes),
            Shipped::Queue(servant) => servant.set_state(alloc, bytes),
        }
    }

    fn get_update(&self, alloc: Global, base: &Shipped) -> Result<Bytes, NoMemory> {
        match (self, base) {
            (Shipped::Account(servant), Shipped::Account(base)) => servant.get_update(alloc, base),
            (Shipped::Store(servant), Shipped::Store(base)) => servant.get_update(alloc, base),
            (Shipped::Queue(servant), Shipped::Queue(base)) => servant.get_update(alloc, base),
            _ => unreachable!(),
        }
    }

    fn set_update(&mut self, alloc: Global, update: &Bytes) -> Result<(), UpdateFault> {
        match self {
            Shipped::Account(servant) => servant.set_update(alloc, update),
            Shipped::Store(servant) => servant.set_update(alloc, update),
            Shipped::Queue(servant) => servant.set_update(alloc, update),
        }
    }

    fn copy(&self, alloc: Global) -> Result<Shipped, NoMemory> {
        match self {
            Shipped::Account(servant) => {
                let servant = servant.copy(alloc)?;
                Ok(Shipped::Account(servant))
            }
            Shipped::Store(servant) => {
                let servant = servant.copy(alloc)?;
                Ok(Shipped::Store(servant))
            }
            Shipped::Queue(servant) => {
                let servant = servant.copy(alloc)?;
                Ok(Shipped::Queue(servant))
            }
        }
    }

    ghost has_state = { laws.has_state };

    ghost stays = { laws.stays };

    ghost gives = { laws.gives };

    ghost sized = { laws.sized };

    ghost update_sized = { laws.update_sized };

    ghost update_stays = { laws.update_stays };

    ghost updates = { laws.updates };
}
