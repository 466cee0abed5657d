//! A link that gives its message only where another link was answered.
ghost use Rattle.std.specs.Prelude.{◌≡◌, ◌<◌, None, false, length, true};
ghost use Rattle.ft_outside.specs.Outside.{IsRead, IsWritten};

use crate::gates::Gate;
use ft_outside::{Flush, Got, Put, Sink, Source, next_count};
use outside_links::Link;
use std::alloc::{AllocError, Global};
use std::sync::Arc;

/// The length of the header of a message, and the kind of a Reply in it.
const HEADER: usize = 12;

const REPLY: u8 = 1;

/// What a link gives: one message so many times, and then its end. Before each it waits until `other` has so many replies as
/// `needs` says, which is one more each time. What is written to it, `own` hears.
#[derive(Drop)]
pub struct Plan {
    message: Vec<u8>,
    times: u32,
    needs: u32,
    own: Arc<Gate, Global>,
    other: Arc<Gate, Global>,
}

impl Plan {
    pub fn new(
        message: Vec<u8>,
        times: u32,
        needs: u32,
        own: &Arc<Gate, Global>,
        other: &Arc<Gate, Global>,
    ) -> Result<Plan, AllocError> {
        Ok(Plan {
            message,
            times,
            needs,
            own: Arc::try_clone(own)?,
            other: Arc::try_clone(other)?,
        })
    }

    // The message was given once more.
    fn turn(&mut self) {
        self.times = self.times.saturating_sub(1);
        self.needs = self.needs.saturating_add(1);
    }
}

/// A link with a plan, which is at a byte of its message.
#[derive(Drop)]
pub struct GateLink {
    plan: Plan,
    start: usize,
    held: Vec<u8>,
    is_closed: bool,
    faults: u64,
}

// The value of a whole reply that ends with a long long, where these bytes are one.
fn reply_value(held: &[u8]) -> Option<u64> {
    let (header, body) = held.split_first_chunk::<HEADER>()?;
    let size = u32::from_be_bytes([header[8], header[9], header[10], header[11]]);
    if header[7] != REPLY || body.len() as u64 != u64::from(size) {
        return None;
    }
    let value = body.last_chunk::<8>()?;
    Some(u64::from_be_bytes(*value))
}

// What stands behind so many bytes.
fn behind_start(message: &[u8], start: usize) -> &[u8] {
    message.get(start..).unwrap_or(&[])
}

impl GateLink {
    /// An open link, at the first byte.
    pub fn new(alloc: Global, plan: Plan) -> GateLink
        ensures faults { result.faults ≡ 0 }
        ensures open { result.is_closed ≡ false }
    {
        GateLink {
            plan,
            start: 0,
            held: Vec::new(alloc),
            is_closed: false,
            faults: 0,
        }
    }

    // Whether it is closed, or has waited for nothing.
    fn is_failing(&self) -> bool
        ensures { self.now.is_closed ≡ true → result ≡ true }
    {
        let plan = &self.plan;
        self.is_closed || (self.start == 0 && plan.times > 0 && !plan.other.has_opened(plan.needs))
    }

    fn take_in(&mut self, into: &mut [u8]) -> Got
        requires { 0 < length into.old }
        ensures read { IsRead None None self.old.faults self.new.faults into.new result }
        ensures closed { self.new.is_closed ≡ self.old.is_closed }
        ensures shut { self.old.is_closed ≡ true → result ≡ Got.Failed }
    {
        if self.is_failing() {
            self.faults = next_count(self.faults);
            return Got::Failed;
        }
        let left = behind_start(self.plan.message.as_slice(), self.start);
        let count = left.len().min(into.len());
        if count == 0 || self.plan.times == 0 {
            return Got::End;
        }
        into[..count].copy_from_slice(&left[..count]);
        if count == left.len() {
            self.start = 0;
            self.plan.turn();
        } else {
            self.start = self.start.saturating_add(count);
        }
        Got::Bytes(count)
    }

    // Whether there was memory for a piece that was written.
    fn hears(&mut self, piece: &[u8]) -> bool
        ensures faults { self.new.faults ≡ self.old.faults }
        ensures closed { self.new.is_closed ≡ self.old.is_closed }
    {
        if self.held.extend_from_slice(piece).is_err() {
            return false;
        }
        if let Some(value) = reply_value(self.held.as_slice()) {
            self.plan.own.note(value);
            self.held.clear();
        }
        true
    }

    fn put_out(&mut self, piece: &[u8]) -> Put
        requires { 0 < length piece.now }
        ensures written { IsWritten None None self.old.faults self.new.faults piece.now result }
        ensures closed { self.new.is_closed ≡ self.old.is_closed }
        ensures shut { self.old.is_closed ≡ true → result ≡ Put.Failed }
    {
        if !self.is_closed && self.hears(piece) {
            return Put::Took(piece.len());
        }
        self.faults = next_count(self.faults);
        Put::Failed
    }

    /// How many faults there were.
    pub fn faults(&self) -> u64
        ensures { result ≡ self.now.faults }
    {
        self.faults
    }
}

impl Source for GateLink {
    ghost use Rattle.std.specs.Prelude.{None};

    ghost left = { λ _. None };

    ghost count = { λ link. link.faults };

    fn read(&mut self, into: &mut [u8]) -> Got {
        self.take_in(into)
    }
}

impl Sink for GateLink {
    ghost use Rattle.std.specs.Prelude.{None};

    ghost holds = { λ _. None };

    ghost count = { λ link. link.faults };

    fn write(&mut self, piece: &[u8]) -> Put {
        self.put_out(piece)
    }

    fn flush(&mut self) -> Flush {
        Flush::Done
    }
}

impl Link for GateLink {
    ghost use Rattle.std.specs.Prelude.{refl};

    ghost faults = { λ link. link.faults };

    ghost closed = { λ link. link.is_closed };

    ghost read_faults = { λ _. refl };

    ghost write_faults = { λ _. refl };

    fn receive(&mut self, into: &mut [u8]) -> Got {
        self.take_in(into)
    }

    fn send(&mut self, piece: &[u8]) -> Put {
        self.put_out(piece)
    }

    fn close(&mut self) {
        if self.is_closed {
            self.faults = next_count(self.faults);
        }
        self.is_closed = true;
    }
}
