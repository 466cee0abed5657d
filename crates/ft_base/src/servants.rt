ghost use Rattle.std.specs.Prelude.{◌≡◌, ℕ, ◌+◌, ◌<◌, ◌^◌, true, List, length, Some, IfOk, OnOk, OnErr};
ghost use Rattle.ft_base.specs.Journal.{Entry, after, AllFit};
ghost use Rattle.ft_base.specs.Machine.{Machine, Fits, IsGiven};
ghost use Rattle.ft_base.specs.Servants.{JudgesState, JudgesUpdate};
ghost use Rattle.ft_base.specs.declared.servants.StateFault.TheVariants as state_faults;
ghost use Rattle.ft_base.specs.declared.servants.UpdateFault.TheVariants as update_faults;
ghost use Rattle.ft_base.specs.declared.requests.Request.{Request};

use crate::counter::Steps;
use crate::memory::NoMemory;
use crate::requests::{Outcome, Request, Signature};
use crate::text::{Bytes, Name};
use std::alloc::Global;
use std::sync::ledger::Ledger;
use thiserror::Error;

/// Why a servant takes no state.
#[derive(Clone, Copy, Debug, PartialEq, Eq, Error)]
pub enum StateFault {
    /// The bytes are no state of this kind of servant.
    #[error("not a state of this kind of servant")]
    InvalidState,
    #[error("no memory")]
    NoMemory,
}

/// Why a servant takes no update.
#[derive(Clone, Copy, Debug, PartialEq, Eq, Error)]
pub enum UpdateFault {
    /// The bytes are no update of the state that the servant has.
    #[error("not an update of this state")]
    InvalidUpdate,
    #[error("no memory")]
    NoMemory,
}

impl From<NoMemory> for StateFault {
    ghost from_gives = { λ _ fault. fault ≡ state_faults.NoMemory };

    fn from(_error: NoMemory) -> StateFault {
        StateFault::NoMemory
    }
}

impl From<NoMemory> for UpdateFault {
    ghost from_gives = { λ _ fault. fault ≡ update_faults.NoMemory };

    fn from(_error: NoMemory) -> UpdateFault {
        UpdateFault::NoMemory
    }
}

/// An object that a group keeps answering: a deterministic function of its state and a request.
///
/// A servant is seen as its kind, a number that no call changes, and the bytes of its state;
/// `machine` gives each kind's function.
pub trait Servant: Sized {
    ghost machine: { ℕ → Machine };

    ghost kind: { Self → ℕ };

    ghost state: { Self → List ℕ };

    /// The parameters and the result of an operation; none where this kind has no such operation.
    fn signature(&self, op: &Name) -> Option<Signature>
        ensures { result ≡ (machine (kind self.now)).signature op.now };

    /// Runs a request. Each call counts one step, also one that finds no memory.
    fn invoke<L: Ledger>(
        &mut self,
        alloc: Global,
        request: &Request,
        steps: &mut Steps<L>,
    ) -> Result<Outcome, NoMemory>
        requires { Fits (machine (kind self.old)) request.now }
        ensures kind { kind self.new ≡ kind self.old }
        ensures ran { IfOk result (λ outcome.
            (machine (kind self.old)).step (state self.old) request.now ≡ (state self.new, outcome)) }
        ensures left { OnErr result (state self.new ≡ state self.old) }
        ensures counted { steps.new ≡ steps.old + 1 };

    /// The bytes of the state.
    fn get_state(&self, alloc: Global) -> Result<Bytes, NoMemory>
        ensures { IfOk result (λ bytes. bytes ≡ state self.now) };

    /// Takes a state, as `get_state` gives it, in place of its own.
    fn set_state(&mut self, alloc: Global, bytes: &Bytes) -> Result<(), StateFault>
        ensures kind { kind self.new ≡ kind self.old }
        ensures set { OnOk result (state self.new ≡ bytes.now) }
        ensures judged { JudgesState ((machine (kind self.old)).is_state bytes.now) result }
        ensures left { OnErr result (state self.new ≡ state self.old) };

    /// The bytes of the update that leads from the state of `base` to this servant's.
    fn get_update(&self, alloc: Global, base: &Self) -> Result<Bytes, NoMemory>
        requires { kind base.now ≡ kind self.now }
        ensures { IfOk result (λ update. update ≡ (machine (kind self.now)).delta (state base.now) (state self.now)) };

    /// Takes an update, as `get_update` gives it, to its own state.
    fn set_update(&mut self, alloc: Global, update: &Bytes) -> Result<(), UpdateFault>
        ensures kind { kind self.new ≡ kind self.old }
        ensures set { OnOk result ((machine (kind self.old)).applied (state self.old) update.now ≡ Some (state self.new)) }
        ensures judged { JudgesUpdate ((machine (kind self.old)).applied (state self.old) update.now) result }
        ensures left { OnErr result (state self.new ≡ state self.old) };

    /// A servant of the same kind in the same state.
    fn copy(&self, alloc: Global) -> Result<Self, NoMemory>
        ensures kind { IfOk result (λ servant. kind servant ≡ kind self.now) }
        ensures same { IfOk result (λ servant. state servant ≡ state self.now) };

    ghost has_state: { (s : Self) → (machine (kind s)).is_state (state s) ≡ true };

    ghost stays: { (k : ℕ) (s : List ℕ) (q : Request) → (machine k).is_state s ≡ true → Fits (machine k) q
        → (machine k).is_state ((machine k).step s q).0 ≡ true };

    ghost gives: { (k : ℕ) (s : List ℕ) (q : Request) → (machine k).is_state s ≡ true → Fits (machine k) q
        → IsGiven (machine k) q ((machine k).step s q).1 };

    ghost sized: { (k : ℕ) (s : List ℕ) → (machine k).is_state s ≡ true → length s + 8 < 2 ^ 32 };

    ghost update_sized: { (k : ℕ) (s t : List ℕ) → (machine k).is_state s ≡ true → (machine k).is_state t ≡ true
        → length ((machine k).delta s t) + 8 < 2 ^ 32 };

    ghost update_stays: { (k : ℕ) (s u t : List ℕ) → (machine k).is_state s ≡ true → (machine k).applied s u ≡ Some t
        → (machine k).is_state t ≡ true };

    ghost updates: { (k : ℕ) (s : List ℕ) (es : List Entry) → (machine k).is_state s ≡ true → AllFit (machine k) es
        → (machine k).applied s ((machine k).delta s (after (machine k) s es)) ≡ Some (after (machine k) s es) };
}
