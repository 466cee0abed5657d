ghost use Rattle.std.specs.Prelude.{◌≡◌, ◌≤◌, [], length, drop, Some, option_map, IfOk, OnOk, OnErr};
ghost use Rattle.ft_base.specs.Machine.{FitsAs};
ghost use Rattle.ft_base.specs.Servants.{JudgesUpdate};
ghost use Rattle.servant_queue.specs.Laws.{owes, IsLater};
ghost use Rattle.servant_queue.specs.Operations.{signature_of};
ghost use Rattle.servant_queue.specs.Queue.{IsContents, advanced, contents_in, kept, popped_from, pushed, queue, ran, spelled};

use crate::arguments::item_in;
use crate::contents::{
    ITEM_LIMIT, ITEM_SIZE, Item, POPPED_LIMIT, advance, contents_of, copied, spell,
};
use crate::operations::{Operation, tell_item, tell_length};
use ft_base::{Bytes, Coded, Name, NoMemory, Outcome, Request, Signature, UpdateFault};
use std::alloc::Global;
use std::collections::VecDeque;
use std::marker::Model;

/// A queue (`IDL:ftc/Queue:1.0`). It is seen as the number of items popped since it opened, at most
/// 2^63, and the items that are there, at most 4,096, the oldest first.
#[derive(Drop)]
pub struct Queue {
    popped: u64,
    items: VecDeque<Item>,
}

impl Model for Queue {
    ghost use Rattle.servant_queue.specs.Queue.{Contents, IsContents};

    ghost Value = { Contents };

    ghost view = { λ q. record { popped = q.popped; items = q.items.items } };

    ghost invariant = { λ q. IsContents (record { popped = q.popped; items = q.items.items }) };
}

impl Queue {
    /// An empty queue.
    pub fn new(alloc: Global) -> Result<Queue, NoMemory>
        ensures { IfOk result (λ queue. queue ≡ record { popped = 0; items = [] }) }
    {
        let items = VecDeque::with_capacity(alloc, ITEM_SIZE)?;
        Ok(Queue { popped: 0, items })
    }

    /// The queue whose state bytes these are.
    fn from_bytes(alloc: Global, bytes: &[u8]) -> Result<Option<Queue>, NoMemory>
        ensures { IfOk result (λ queue. queue ≡ contents_in bytes.now) }
    {
        match contents_of(alloc, bytes)? {
            Some((popped, items)) => Ok(Some(Queue { popped, items })),
            None => Ok(None),
        }
    }

    fn push(&mut self, alloc: Global, item: &[u8]) -> Result<Outcome, NoMemory>
        ensures ran { IfOk result (λ outcome. (self.new, outcome) ≡ pushed self.old item.now) }
        ensures left { OnErr result (self.new ≡ self.old) }
        ensures before { IsContents self.old }
        ensures after { IsContents self.new }
    {
        let length = self.items.len();
        if item.len() != ITEM_SIZE {
            let outcome = Outcome::user(alloc, b"BadItem")?;
            return Ok(outcome);
        }
        if length >= ITEM_LIMIT {
            let outcome = Outcome::user(alloc, b"QueueFull")?;
            return Ok(outcome);
        }
        let outcome = tell_length(alloc, length as u32 + 1)?;
        let mut kept = [0; ITEM_SIZE];
        kept.copy_from_slice(item);
        self.items.push_back(kept)?;
        Ok(outcome)
    }

    fn pop(&mut self, alloc: Global) -> Result<Outcome, NoMemory>
        ensures ran { IfOk result (λ outcome. (self.new, outcome) ≡ popped_from self.old self.old.items) }
        ensures left { OnErr result (self.new ≡ self.old) }
        ensures before { IsContents self.old }
        ensures after { IsContents self.new }
    {
        let oldest = match self.items.front() {
            Some(item) => *item,
            None => {
                let outcome = Outcome::user(alloc, b"QueueEmpty")?;
                return Ok(outcome);
            }
        };
        if self.popped >= POPPED_LIMIT {
            let outcome = Outcome::user(alloc, b"QueueSpent")?;
            return Ok(outcome);
        }
        let outcome = tell_item(alloc, &oldest)?;
        let _ = self.items.pop_front();
        self.popped += 1;
        Ok(outcome)
    }

    fn length(&self) -> u32
        ensures value { result ≡ length self.now.items }
        ensures sound { IsContents self.now }
    {
        self.items.len() as u32
    }

    /// The bytes of the number popped and of the items from a place on.
    fn bytes_from(&self, alloc: Global, first: usize) -> Result<Bytes, NoMemory>
        requires { first ≤ length self.now.items }
        ensures spelled { IfOk result (λ bytes. bytes ≡ spelled (record self.now { items = drop first self.now.items })) }
        ensures sound { IsContents self.now }
    {
        spell(alloc, self.popped, &self.items, first)
    }

    /// The place of the first item that was pushed since a base, where one is still there.
    #[tactic(auto, using(std::proofs::lemmas::List::drop_min))]
    fn kept_of(&self, base: &Queue) -> usize
        ensures within { result ≤ length self.now.items }
        ensures base { IsContents base.now }
        ensures rest { drop result self.now.items ≡ drop (kept base.now self.now.popped) self.now.items }
    {
        let gone = self.popped.saturating_sub(base.popped);
        let kept = (base.items.len() as u64).saturating_sub(gone) as usize;
        kept.min(self.items.len())
    }

    /// Takes away the items that were popped by a later time, and takes over those pushed since.
    fn join(&mut self, later: Queue) -> Result<(), UpdateFault>
        ensures joined { OnOk result (advanced self.old (Some later) ≡ Some self.new) }
        ensures judged { JudgesUpdate (option_map spelled (advanced self.old (Some later))) result }
        ensures before { IsContents self.old }
        ensures left { OnErr result (self.new ≡ self.old) }
    {
        let Queue { popped, mut items } = later;
        if popped < self.popped {
            return Err(UpdateFault::InvalidUpdate);
        }
        let length = self.items.len();
        let gone = (popped - self.popped).min(length as u64) as usize;
        if length - gone + items.len() > ITEM_LIMIT {
            return Err(UpdateFault::InvalidUpdate);
        }
        match advance(&mut self.items, gone, &mut items) {
            Ok(()) => {
                self.popped = popped;
                Ok(())
            }
            Err(NoMemory) => Err(UpdateFault::NoMemory),
        }
    }

    fn perform(
        &mut self,
        alloc: Global,
        operation: Operation,
        args: &Bytes,
    ) -> Result<Outcome, NoMemory>
        requires { FitsAs (Some (signature_of operation)) args.now }
        ensures ran { IfOk result (λ outcome. (self.new, outcome) ≡ ran (Some operation) self.old args.now) }
        ensures left { OnErr result (self.new ≡ self.old) }
        ensures before { IsContents self.old }
        ensures after { IsContents self.new }
    {
        let length = self.length();
        match operation {
            Operation::Push => {
                let item = item_in(alloc, args)?;
                self.push(alloc, item.bytes())
            }
            Operation::Pop => self.pop(alloc),
            Operation::Length => tell_length(alloc, length),
        }
    }
}

/// A push of an item of 16 bytes, a pop of the oldest item, and a look at how many there are. A push
/// is refused with `BadItem` where the item has another size, and with `QueueFull` where 4,096 are
/// there; a pop with `QueueEmpty`, and with `QueueSpent` once 2^63 items were popped. A refusal
/// changes nothing. An update has the number popped by now, and the items pushed since that are
/// still there.
impl Coded for Queue {
    ghost coding = { queue };

    ghost leads = { IsLater };

    #[tactic(auto, using(crate::proofs::States::good))]
    fn is_sound(&self) {
        let _popped = self.popped;
    }

    #[tactic(auto, unfolding(crate::specs::Queue::queue))]
    fn signature_of(op: &Name) -> Option<Signature> {
        match Operation::named(op) {
            Some(operation) => Some(operation.signature()),
            None => None,
        }
    }

    #[tactic(auto, unfolding(crate::specs::Queue::queue))]
    fn run(&mut self, alloc: Global, request: &Request) -> Result<Outcome, NoMemory> {
        match Operation::named(&request.op) {
            Some(operation) => self.perform(alloc, operation, &request.args),
            None => unreachable!(),
        }
    }

    #[tactic(auto, unfolding(crate::specs::Queue::queue))]
    fn spell(&self, alloc: Global) -> Result<Bytes, NoMemory> {
        self.bytes_from(alloc, 0)
    }

    #[tactic(auto, using(crate::proofs::States::value_is))]
    fn read(alloc: Global, bytes: &Bytes) -> Result<Option<Queue>, NoMemory> {
        Queue::from_bytes(alloc, bytes.bytes())
    }

    #[tactic(auto, unfolding(crate::specs::Queue::queue))]
    fn spell_update(&self, alloc: Global, base: &Queue) -> Result<Bytes, NoMemory> {
        self.bytes_from(alloc, self.kept_of(base))
    }

    #[tactic(auto, unfolding(crate::specs::Queue::queue))]
    fn take_update(&mut self, alloc: Global, update: &Bytes) -> Result<(), UpdateFault> {
        match Queue::from_bytes(alloc, update.bytes()) {
            Ok(Some(later)) => self.join(later),
            Ok(None) => Err(UpdateFault::InvalidUpdate),
            Err(NoMemory) => Err(UpdateFault::NoMemory),
        }
    }

    fn equal(&self, alloc: Global) -> Result<Queue, NoMemory> {
        let items = copied(alloc, &self.items)?;
        Ok(Queue {
            popped: self.popped,
            items,
        })
    }

    ghost owes = { owes };
}
