//! What is asked of a group in a turn, and what is answered.
use ft_base::{HostNo, Key, NoMemory, Outcome, Par, Tick, View};
use group_looks::Figures;
use group_model::{Asked, Event, GroupAnswer};
use std::snapshot::Snapshot;

/// What is asked of a group in a turn.
#[derive(Drop)]
pub enum Call {
    /// An event of which the caller gets what it sends. It is neither a checkpoint nor an update that is sent.
    Act(Event),
    /// A request comes to a host, with clock 0 and no stop. What it sends joins the queue.
    Ask { host: HostNo, asked: Asked },
    /// The first of the queue arrives.
    Carry,
    /// The host whose part it is takes a checkpoint. What it sends joins the queue.
    Checkpoint { clock: Tick },
    /// A look: whether the host is up, and a member of the view that it knows.
    Here { host: HostNo },
    /// A look: the group's figures.
    Figures,
    /// A look: the reply that is held for a key.
    Reply { key: Key },
}

/// What an event came to whose Outs joined the queue: its answer without them. `whole` has them, for contracts alone.
#[derive(Drop)]
pub struct QueuedAnswer {
    pub answer: GroupAnswer,
    pub whole: Snapshot<GroupAnswer>,
}

/// What a request came to: also what its operation gives, and the view to which it was forwarded, if it was.
#[derive(Drop)]
pub struct AskAnswer {
    pub queued: QueuedAnswer,
    pub gives: Option<Par>,
    pub view: Option<View>,
}

/// What is answered in a turn.
#[derive(Drop)]
pub enum CallAnswer {
    /// Of an event, or of what was carried.
    Event(GroupAnswer),
    /// Of a request.
    Ask(AskAnswer),
    /// Of a checkpoint.
    Checkpoint(QueuedAnswer),
    /// There was nothing to carry, or nobody to take a checkpoint.
    Nothing,
    /// Whether the host is here.
    Here(bool),
    Figures(Result<Figures, NoMemory>),
    Reply(Result<Option<Outcome>, NoMemory>),
}
