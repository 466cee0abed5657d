use crate::asking::Asked;
use crate::changes::{Change, ManageFault};
use ft_base::{Bytes, Decision, HostNo, Ignored, Request, Stop, Tick, Version, View};
use std::alloc::Global;
use std::marker::Model;
use sys_faults::Answer;

/// What happens to a group: all of it at one host, but for a change of its members.
#[derive(Drop)]
pub enum Event {
    /// A request comes to a host whose clock shows this; the host may stop in the middle of it.
    Request {
        host: HostNo,
        clock: Tick,
        asked: Asked,
        stop: Stop,
    },
    /// A host hears of the view of this version.
    View {
        host: HostNo,
        version: Version,
    },
    /// A host gets the state after the first `position` entries.
    State {
        host: HostNo,
        position: u32,
        state: Bytes,
    },
    /// A host gets the update between the states after the first `from` and the first `to` entries.
    Update {
        host: HostNo,
        from: u32,
        to: u32,
        update: Bytes,
    },
    /// A host gets the entry at this place of the journal.
    Order {
        host: HostNo,
        index: u32,
        request: Request,
    },
    /// The host stops.
    Crash(HostNo),
    /// The host starts again, and knows nothing.
    Restart(HostNo),
    /// The host, whose clock shows this, takes a checkpoint.
    Checkpoint {
        host: HostNo,
        clock: Tick,
    },
    /// The host sends an update to the other members.
    SendUpdate(HostNo),
    /// The group's members are changed.
    Manage(Change),
}

/// What one host sends to another.
#[derive(Drop)]
pub enum Inner {
    View { version: Version },
    State { position: u32, state: Bytes },
    Update { from: u32, to: u32, update: Bytes },
    Order { index: u32, request: Request },
}

/// Something that is sent, and the host to which it goes.
#[derive(Drop)]
pub struct Out {
    pub to: HostNo,
    pub carried: Inner,
}

/// What an event sends, in order.
#[derive(Drop)]
pub struct OutList {
    items: Vec<Out>,
}

impl Model for OutList {
    ghost use Rattle.std.specs.Prelude.{List};
    ghost use Rattle.group_model.specs.declared.events.Out.{Out};

    ghost Value = { List Out };

    ghost view = { λ o. o.items.items };
}

impl OutList {
    ghost use Rattle.std.specs.Prelude.{◌≡◌, []};

    /// Nothing. It takes no memory.
    pub fn new(alloc: Global) -> OutList
        ensures { result ≡ [] }
    {
        OutList {
            items: Vec::new(alloc),
        }
    }

    /// These, in order. It takes no memory.
    pub fn from_vec(items: Vec<Out>) -> OutList
        ensures { result ≡ items.items }
    {
        OutList { items }
    }

    /// What is sent, in order. It takes no memory.
    pub fn into_vec(self) -> Vec<Out>
        ensures { result.items ≡ self }
    {
        self.items
    }

    /// What is sent, in order.
    pub fn as_slice(&self) -> &[Out]
        ensures { result.now ≡ self.now }
    {
        self.items.as_slice()
    }
}

/// What a group makes of an event.
#[derive(Drop)]
pub enum GroupAnswer {
    /// Of a request: what was decided and answered, and what is sent to other members. There is no
    /// answer exactly where the host stopped.
    Reply {
        decision: Decision,
        answer: Option<Answer>,
        out: OutList,
    },
    /// The host now knows this version.
    Known(Version),
    /// The host is now at this position.
    Applied(u32),
    /// The host holds the order back, and stays at this position.
    Held(u32),
    Ignored(Ignored),
    /// A checkpoint or an update was taken: the base of before, the position, and what is sent.
    Taken {
        from: u32,
        position: u32,
        out: OutList,
    },
    /// The members were changed: the new view, and what is sent.
    Changed {
        view: View,
        out: OutList,
    },
    /// The change was refused.
    Refused(ManageFault),
    /// The checkpoint couldn't be written.
    LogFault,
    /// The host is down.
    Down,
    /// The host is up again.
    Up,
    NoMemory,
}
