ghost use Rattle.std.specs.Prelude.{◌≡◌, ◌+◌, ◌<◌, ◌≤◌, max, fold, drop, [], IfOk, OnOk, OnErr};
ghost use Rattle.std.specs.VecDeque.{deque_len, deque_capacity};
ghost use Rattle.ft_outside.specs.Keeping.{planned, failing_next};

use crate::keepers::{Keeper, Kept};
use crate::schedules::next_count;
use ft_base::{Bytes, NoMemory};
use std::alloc::Global;
use std::collections::VecDeque;
use std::marker::Model;

/// A keeper in memory, which fails where it was told to.
#[derive(Drop)]
pub struct MemKeeper {
    records: VecDeque<Bytes>,
    spare: u32,
    plan: VecDeque<bool>,
    faults: u64,
}

impl Model for MemKeeper {
    ghost use Rattle.std.specs.Prelude.{◌+◌, ◌≤◌};
    ghost use Rattle.std.specs.VecDeque.{deque_len, deque_capacity};
    ghost use Rattle.ft_outside.specs.Keeping.{Shelf};

    ghost Value = { Shelf };

    ghost view = { λ k. record { records = k.records.items; spare = k.spare; plan = k.plan.items; faults = k.faults } };

    ghost invariant = { λ k. deque_len k.records + k.spare ≤ deque_capacity k.records };
}

fn greatest(numbers: &[u64]) -> u64
    ensures { result ≡ fold max 0 numbers.now }
{
    let mut most = 0;
    for number in numbers {
        most = (*number).max(most);
    }
    most
}

fn plan_of(alloc: Global, fails: &[u64]) -> Result<VecDeque<bool>, NoMemory>
    ensures planned { IfOk result (λ plan. plan.items ≡ planned fails.now) }
    ensures some { OnErr result (0 < fold max 0 fails.now) }
{
    let mut plan = VecDeque::new(alloc);
    for calls in 0..greatest(fails) {
        let number = calls + 1;
        plan.push_back(fails.contains(&number))?;
    }
    Ok(plan)
}

/// Makes the first place `true`, whether or not there was one.
fn set_first(plan: &mut VecDeque<bool>) -> Result<(), NoMemory>
    ensures planned { OnOk result (plan.new.items ≡ failing_next plan.old.items) }
    ensures left { OnErr result ((plan.new.items ≡ plan.old.items) × (plan.old.items ≡ [])) }
{
    if plan.is_empty() {
        plan.reserve(1)?;
    }
    plan.pop_front();
    plan.push_front_reserved(true);
    Ok(())
}

fn drop_first(records: &mut VecDeque<Bytes>, count: usize)
    requires { count ≤ deque_len records.old }
    ensures items { records.new.items ≡ drop count records.old.items }
    ensures len { deque_len records.new + count ≡ deque_len records.old }
    ensures room { deque_capacity records.new ≡ deque_capacity records.old }
{
    drop(records.drain(..count));
}

impl MemKeeper {
    /// A keeper without records. `fails` are the numbers, from 1, of the writing calls that are to
    /// fail. It takes memory only where there are such.
    pub fn new(alloc: Global, fails: &[u64]) -> Result<MemKeeper, NoMemory>
        ensures empty { IfOk result (λ keeper. keeper ≡ record { records = []; spare = 0; plan = planned fails.now; faults = 0 }) }
        ensures some { OnErr result (0 < fold max 0 fails.now) }
    {
        let plan = plan_of(alloc, fails)?;
        Ok(MemKeeper {
            records: VecDeque::new(alloc),
            spare: 0,
            plan,
            faults: 0,
        })
    }

    /// Makes the next writing call fail. It takes memory only where the plan is at its end.
    pub fn fail_next(&mut self) -> Result<(), NoMemory>
        ensures planned { OnOk result (self.new ≡ record self.old { plan = failing_next self.old.plan }) }
        ensures left { OnErr result ((self.new ≡ self.old) × (self.old.plan ≡ [])) }
    {
        set_first(&mut self.plan)
    }
}

impl Keeper for MemKeeper {
    ghost use Rattle.std.specs.Prelude.{Some};

    ghost records = { λ keeper. keeper.records };

    ghost spare = { λ keeper. keeper.spare };

    ghost plan = { λ keeper. Some keeper.plan };

    ghost faults = { λ keeper. keeper.faults };

    fn reserve(&mut self, _alloc: Global, pieces: u32) -> Result<(), NoMemory> {
        let spare = self.spare.max(pieces);
        self.records.reserve(spare as usize)?;
        self.spare = spare;
        Ok(())
    }

    fn append(&mut self, piece: Bytes) -> Kept {
        self.spare -= 1;
        if self.plan.pop_front() == Some(true) {
            self.faults = next_count(self.faults);
            return Kept::Failed;
        }
        self.records.push_back_reserved(piece);
        Kept::Done
    }

    fn cut(&mut self, first: u64) -> Kept {
        if self.plan.pop_front() == Some(true) {
            self.faults = next_count(self.faults);
            return Kept::Failed;
        }
        drop_first(&mut self.records, first as usize);
        Kept::Done
    }

    fn count(&self) -> u64 {
        self.records.len() as u64
    }

    fn read(&self, index: u64) -> Option<&Bytes> {
        self.records.get(index as usize)
    }
}
