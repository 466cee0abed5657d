//! Servants that come to the state of another of their kind.
ghost use Rattle.std.specs.Prelude.{◌≡◌, OnOk};
ghost use Rattle.ft_base.specs.Machine.{Fits};
ghost use Rattle.ft_base.specs.Servants.{IsReached};

use ft_base::{NoMemory, Request, Servant, Steps, move_state, move_update, requests_lead_on};
use std::alloc::Global;
use std::sync::ledger::Ledger;

fn called<S: Servant, L: Ledger>(
    alloc: Global,
    servant: &mut S,
    request: &Request,
    steps: &mut Steps<L>,
) -> Result<(), NoMemory>
    requires { Fits (S.machine (S.kind servant.old)) request.now }
    ensures kind { S.kind servant.new ≡ S.kind servant.old }
    ensures reached { OnOk result (IsReached (S.machine (S.kind servant.old)) (S.state servant.old) (S.state servant.new)) }
{
    requests_lead_on();
    let _outcome = servant.invoke(alloc, request, steps)?;
    Ok(())
}

/// A servant that the update of a request has led on from `servant`; `other` comes to its state by the whole state.
pub fn moved<S: Servant + Drop, L: Ledger>(
    alloc: Global,
    servant: &S,
    other: &mut S,
    request: &Request,
    steps: &mut Steps<L>,
) -> Result<S, NoMemory>
    requires fits { Fits (S.machine (S.kind servant.now)) request.now }
    requires kind { S.kind other.old ≡ S.kind servant.now }
{
    let mut from = servant.copy(alloc)?;
    called(alloc, &mut from, request, steps)?;
    let mut to = servant.copy(alloc)?;
    move_update(alloc, &from, servant, &mut to)?;
    move_state(alloc, &from, other)?;
    Ok(to)
}
