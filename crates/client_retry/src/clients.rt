ghost use Rattle.std.specs.Prelude.{◌≡◌, option_copied, is_some, IsTrue, None, false};
ghost use Rattle.client_retry.specs.Invocations.{Reply, Silence};
ghost use Rattle.client_retry.specs.Clients.{Client, new_client, starting, setting_down, hearing};
ghost use Rattle.client_retry.specs.Counters.{StandsFor, counting, counting_start, read};

use crate::answers::{Act, End, Heard};
use crate::attempts::{at_fault, at_first};
use crate::meanings::{Meaning, replied, said};
use ft_base::Tick;
use iogr_reference::GroupRef;
use std::marker::Model;

/// How far an open invocation has come.
#[derive(Clone, Copy)]
struct Progress {
    /// The id of its first attempt.
    first: u32,
    expiration: Tick,
    /// The faults since its reference was adopted.
    faults: u32,
}

/// What a client remembers of its invocations: the reference that it goes by, its last request id, and
/// how far the open invocation has come. It sends nothing itself. No call takes memory.
#[derive(Drop)]
pub struct ClientCore {
    reference: Option<GroupRef>,
    last: u32,
    progress: Option<Progress>,
}

impl Model for ClientCore {
    ghost use Rattle.client_retry.specs.Counters.{Picture, IsSound};

    ghost Value = { Picture };

    ghost view = { λ c. record { reference = c.reference; last = c.last; progress = c.progress } };

    ghost invariant = { λ c. IsSound c.reference c.progress };
}

impl ClientCore {
    /// A client that has begun no invocation.
    pub fn new() -> ClientCore
        ensures { StandsFor new_client result }
    {
        ClientCore {
            reference: None,
            last: 0,
            progress: None,
        }
    }

    /// Whether an invocation is open.
    pub fn is_open(&self) -> bool
        ensures { result ≡ is_some self.now.progress }
    {
        self.progress.is_some()
    }

    /// The reference that it goes by: the one that it began its last invocation with, or adopted since.
    pub fn reference(&self) -> Option<&GroupRef>
        ensures { option_copied result ≡ self.now.reference }
    {
        self.reference.as_ref()
    }

    /// Begins an invocation over this reference, whose request expires at this moment.
    pub fn start(&mut self, reference: GroupRef, expiration: Tick) -> Act
        requires { is_some self.old.progress ≡ false }
        ensures act { (client : Client) → StandsFor client self.old → result ≡ (starting client reference expiration).act }
        ensures stands { (client : Client) → StandsFor client self.old → StandsFor (starting client reference expiration).client self.new }
    {
        self.begin(reference, expiration)
    }

    /// Gives away the reference that it goes by, between two invocations. It keeps its last request id.
    pub fn take_reference(&mut self) -> Option<GroupRef>
        requires { is_some self.old.progress ≡ false }
        ensures reference { result ≡ self.old.reference }
        ensures core { self.new ≡ record self.old { reference = None } }
        ensures stands { (client : Client) → StandsFor client self.old → StandsFor (setting_down client) self.new }
    {
        self.reference.take()
    }

    /// A reply to the request with this id came at this moment.
    pub fn reply(&mut self, id: u32, heard: Heard, now: Tick) -> Act
        ensures act { (client : Client) → StandsFor client self.old → result ≡ (hearing client (Reply id heard now)).act }
        ensures stands { (client : Client) → StandsFor client self.old → StandsFor (hearing client (Reply id heard now)).client self.new }
    {
        let meaning = self.read(id, heard, now);
        self.count(meaning)
    }

    /// At this moment it is known that the last attempt gets no reply: its time is over, or its link
    /// failed.
    pub fn fault(&mut self, now: Tick) -> Act
        ensures act { (client : Client) → StandsFor client self.old → result ≡ (hearing client (Silence now)).act }
        ensures stands { (client : Client) → StandsFor client self.old → StandsFor (hearing client (Silence now)).client self.new }
    {
        self.count(Meaning::Fault(now))
    }

    fn begin(&mut self, reference: GroupRef, expiration: Tick) -> Act
        ensures core { self.new ≡ (counting_start self.old reference expiration).core }
        ensures act { result ≡ (counting_start self.old reference expiration).act }
    {
        let last = self.last;
        let attempt = at_first(&reference, last);
        self.reference = Some(reference);
        match attempt {
            Ok(place) => {
                let id = last + 1;
                self.last = id;
                self.progress = Some(Progress {
                    first: id,
                    expiration,
                    faults: 0,
                });
                Act::Send { place, id }
            }
            Err(end) => {
                self.progress = None;
                Act::Done(end)
            }
        }
    }

    /// What a reply means to the open invocation.
    fn read(&self, id: u32, heard: Heard, now: Tick) -> Meaning
        ensures { result ≡ read self.now id heard now }
    {
        let Some(reference) = &self.reference else {
            return Meaning::Unheard;
        };
        let Some(progress) = self.progress else {
            return Meaning::Unheard;
        };
        let said = said(reference, now, heard);
        replied(progress.first, self.last, id, said)
    }

    fn count(&mut self, meaning: Meaning) -> Act
        ensures core { self.new ≡ (counting self.old meaning).core }
        ensures act { result ≡ (counting self.old meaning).act }
    {
        if !self.is_open() {
            return Act::Nothing;
        }
        match meaning {
            Meaning::Unheard => Act::Nothing,
            Meaning::Fault(now) => self.fail(now),
            Meaning::Newer(reference) => self.adopt(reference),
            Meaning::Final(end) => self.end(end),
        }
    }

    fn fail(&mut self, now: Tick) -> Act
        ensures core { self.new ≡ (counting self.old (Meaning.Fault now)).core }
        ensures act { result ≡ (counting self.old (Meaning.Fault now)).act }
    {
        let Some(reference) = &self.reference else {
            return Act::Nothing;
        };
        let Some(progress) = self.progress else {
            return Act::Nothing;
        };
        let last = self.last;
        let faults = progress.faults + 1;
        match at_fault(reference, faults, last, progress.expiration, now) {
            Ok(place) => {
                self.last = last + 1;
                self.progress = Some(Progress { faults, ..progress });
                Act::Send {
                    place,
                    id: last + 1,
                }
            }
            Err(end) => {
                self.progress = None;
                Act::Done(end)
            }
        }
    }

    fn adopt(&mut self, reference: GroupRef) -> Act
        requires { IsTrue (is_some self.old.progress) }
        ensures core { self.new ≡ (counting self.old (Meaning.Newer reference)).core }
        ensures act { result ≡ (counting self.old (Meaning.Newer reference)).act }
    {
        let Some(progress) = self.progress else {
            return Act::Nothing;
        };
        let last = self.last;
        let version = reference.version;
        let attempt = at_first(&reference, last);
        self.reference = Some(reference);
        match attempt {
            Ok(place) => {
                let id = last + 1;
                self.last = id;
                self.progress = Some(Progress {
                    faults: 0,
                    ..progress
                });
                Act::Adopted { version, place, id }
            }
            Err(end) => {
                self.progress = None;
                Act::Done(end)
            }
        }
    }

    fn end(&mut self, end: End) -> Act
        requires { IsTrue (is_some self.old.progress) }
        ensures core { self.new ≡ (counting self.old (Meaning.Final end)).core }
        ensures act { result ≡ (counting self.old (Meaning.Final end)).act }
    {
        self.progress = None;
        Act::Done(end)
    }
}
