//! An order comes to a host.
ghost use Rattle.std.specs.Prelude.{◌||◌, ℕ, List, not, nat_lt, OnOk, OnErr};
ghost use Rattle.group_model.specs.Plain.{Common, Host, Place};
ghost use Rattle.active_sequencer.specs.Orders.{seen, CanOrder, CanRun, HasRun, HasStopped, IsOrdered, IsIgnoredWhere};

use crate::holding::Holdback;
use ft_base::{NoMemory, Request, Servant, Steps};
use ft_replica::Replica;
use group_stands::{holdbacks_go_on, orders_run};
use std::alloc::Global;
use std::sync::ledger::Ledger;

/// What a host made of an order.
#[derive(Clone, Copy, Debug, PartialEq, Eq)]
pub enum Ordered {
    /// It ran the entry, and those held back that follow it: it is at this position now.
    Applied(u32),
    /// It holds the order back, and stays at this position.
    Held(u32),
    /// It has no state, or has run the entry: it stays at this position.
    Ignored(u32),
    /// There was no memory. Nothing has changed; or the order is held, and the host ran some of the entries
    /// that follow one another.
    NoMemory,
}

/// Runs the orders that follow one another from the replica's position on.
fn run_held<S: Servant + Drop, L: Ledger>(
    alloc: Global,
    orders: &Holdback,
    replica: &mut Replica<S>,
    steps: &mut Steps<L>,
) -> Result<(), NoMemory>
    requires { (c : Common) × (place : Place) × (holdback : List ℕ) × CanRun S.machine c place holdback orders.now replica.old }
    ensures ran { OnOk result ((c : Common) (place : Place) (holdback : List ℕ) → CanRun S.machine c place holdback orders.now replica.old →
        HasRun S.machine c place holdback replica.new steps.old steps.new) }
    ensures stopped { OnErr result ((c : Common) (place : Place) (holdback : List ℕ) → CanRun S.machine c place holdback orders.now replica.old →
        HasStopped S.machine c place holdback replica.new steps.old steps.new) }
{
    holdbacks_go_on();
    orders_run();
    for _done in 0..orders.len() {
        let Some(request) = orders.request(replica.position()) else {
            return Ok(());
        };
        if let Err(NoMemory) = replica.apply(alloc, request, steps) {
            return Err(NoMemory);
        }
    }
    Ok(())
}

/// An order comes to a host: the entry at a place of the journal, which the host that was asked has run.
///
/// A host that is loaded holds it back until it has run all entries before it, and then runs on over
/// what it holds. The replies of such entries are set, so no log is written.
pub fn order<S: Servant + Drop, L: Ledger>(
    alloc: Global,
    holdback: &mut Holdback,
    replica: &mut Replica<S>,
    index: u32,
    request: Request,
    steps: &mut Steps<L>,
) -> Ordered
    requires { (c : Common) × (h : Host) × CanOrder S.machine c h index request (seen holdback.old replica.old steps.old) }
    ensures ordered { (c : Common) (h : Host) → CanOrder S.machine c h index request (seen holdback.old replica.old steps.old) →
        IsOrdered S.machine c h index result (seen holdback.old replica.old steps.old) (seen holdback.new replica.new steps.new) }
    ensures ignored { IsIgnoredWhere (not replica.old.loaded || nat_lt index replica.old.position) replica.old.position result
        (seen holdback.old replica.old steps.old) (seen holdback.new replica.new steps.new) }
{
    holdbacks_go_on();
    let first = replica.position();
    if !replica.is_loaded() || index < first {
        return Ordered::Ignored(first);
    }
    if let Err(NoMemory) = holdback.hold(index, request) {
        return Ordered::NoMemory;
    }
    let ran = run_held(alloc, holdback, replica, steps);
    let position = replica.position();
    holdback.drop_below(position);
    if let Err(NoMemory) = ran {
        return Ordered::NoMemory;
    }
    if first < position {
        Ordered::Applied(position)
    } else {
        Ordered::Held(position)
    }
}
