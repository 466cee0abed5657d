ghost use Rattle.std.specs.Prelude.{◌≡◌, [], ◌∷◌, ◌++◌, List, OnOk};
ghost use Rattle.std.specs.List.{flat_map};
ghost use Rattle.ft_report.specs.Report.{report_text};
ghost use Rattle.ft_report.specs.declared.reports.ReportLine.{ReportLine};

use crate::histories::{Written, WrittenLine};
use crate::outcomes::ReportOutcome;
use crate::rendering::{at_line, bytes_line, closed_line, reply_line, write_line};
use ft_base::{Bytes, Decision, GroupId, HostNo, Ignored, Members, Name, NoMemory, Tick, Version};
use giop_messages::Why;
use group_model::ManageFault;
use std::alloc::Global;
use std::marker::Model;
use std::snapshot::Snapshot;

/// What a host is in a group.
#[derive(Clone, Copy, Debug, PartialEq, Eq)]
pub enum Role {
    /// The one member of a passive group that runs requests.
    Primary,
    /// Another member of a passive group.
    Backup,
    /// A member of an active group.
    Active,
    /// No member any more, and still loaded.
    Former,
}

/// How a host stands in a group.
#[derive(Debug, Drop)]
pub enum Standing {
    /// It is loaded: the version that it knows, its place in the journal, and its state there.
    At {
        known: Version,
        position: u32,
        state: Bytes,
    },
    /// It is up and has no state.
    Blank {
        known: Version,
    },
    /// It is down.
    Down,
}

/// Why properties, or the criteria of a group that is to be made, are refused (chapter 23,
/// PropertyManager and GenericFactory). Places count from 0.
#[derive(Clone, Copy, Debug, PartialEq, Eq)]
pub enum SettingFault {
    /// The property at this place is none.
    InvalidProperty(u32),
    /// The property at this place has a value that isn't supported, or can't be set then.
    UnsupportedProperty(u32),
    /// The criterion at this place is none.
    InvalidCriteria(u32),
    /// As many members as the group begins with are fewer than the least that it may have.
    CannotMeetCriteria { initial: u16, minimum: u16 },
    /// So many hosts as can make the group's first members are fewer than the least that it may have.
    TooFew { fit: u16, minimum: u16 },
}

/// Why a subscriber is refused. It is none then.
#[derive(Clone, Copy, Debug, PartialEq, Eq)]
pub enum SubscribeFault {
    /// The term at this place of its filter, counted from 0, is none.
    BadFilter(u32),
    /// So many subscribers are connected, and that is as many as there can be.
    Full(u32),
}

/// How a client's invocation ended.
#[derive(Debug, Drop)]
pub enum CallEnd {
    /// By what a host answered.
    Shown(ReportOutcome),
    /// The client gave up at `now`, which isn't before the request's expiration.
    NoResponse { expiration: Tick, now: Tick },
    /// The client gave up after so many faults over a reference of so many profiles.
    Transient { faults: u32, profiles: u16 },
    /// The client has no request id left.
    IdsSpent,
}

/// One line of output.
#[derive(Debug, Drop)]
pub enum ReportLine {
    /// A group was made.
    Group {
        name: Name,
        id: GroupId,
    },
    /// A group's view, at its creation and at each change.
    View {
        group: Name,
        version: Version,
        members: Members,
        primary: Option<HostNo>,
    },
    /// A group was deleted.
    Deleted {
        group: Name,
    },
    /// A client's attempt, as a message.
    Attempt {
        message: u64,
        client: Name,
        host: HostNo,
        id: u32,
    },
    /// A reply, as a message.
    Reply {
        message: u64,
        host: HostNo,
        client: Name,
        id: u32,
        shown: ReportOutcome,
    },
    /// What a host made of a request.
    At {
        host: HostNo,
        group: Name,
        decision: Decision,
    },
    /// A view that a host is told, as a message.
    ViewMessage {
        message: u64,
        host: HostNo,
        group: Name,
        version: Version,
    },
    /// One member's state goes to another, as a message.
    StateMessage {
        message: u64,
        from: HostNo,
        to: HostNo,
        group: Name,
        position: u32,
    },
    /// The update between two positions goes from one member to another, as a message.
    UpdateMessage {
        message: u64,
        from: HostNo,
        to: HostNo,
        group: Name,
        base: u32,
        position: u32,
    },
    /// An entry of the journal goes from one member to another, as a message.
    OrderMessage {
        message: u64,
        from: HostNo,
        to: HostNo,
        group: Name,
        index: u32,
    },
    /// The monitor asks a group's member whether it is alive, as a message.
    Ping {
        message: u64,
        host: HostNo,
        group: Name,
    },
    /// A host answers the monitor that its member of the group is alive, as a message.
    Pong {
        message: u64,
        host: HostNo,
        group: Name,
    },
    /// What one member sent took another on, to this position.
    Applied {
        message: u64,
        position: u32,
    },
    /// An order is held back, by a member at this position.
    Held {
        message: u64,
        index: u32,
        position: u32,
    },
    /// A host was told of a view, and knows it from now on.
    Known {
        host: HostNo,
        group: Name,
        version: Version,
    },
    /// The monitor heard that the group's member on this host is alive.
    Alive {
        group: Name,
        host: HostNo,
    },
    /// A message came to a host that is down.
    Lost {
        message: u64,
    },
    /// A reply came for which no client waits.
    UnheardReply {
        message: u64,
    },
    /// A message came for a group that was deleted.
    IgnoredDeleted {
        message: u64,
    },
    /// A member answered that the monitor doesn't watch.
    IgnoredUnwatched {
        message: u64,
    },
    /// A host ignored what was sent to it.
    Ignored {
        message: u64,
        why: Ignored,
    },
    /// A client goes on over the reference of a view that it was told.
    Adopted {
        client: Name,
        group: Name,
        version: Version,
    },
    /// `bound C G V`: the client goes by the reference of this view now.
    Bound {
        client: Name,
        group: Name,
        version: Version,
    },
    /// A client's invocation ended.
    Done {
        client: Name,
        call: u32,
        end: CallEnd,
    },
    /// A client was asked to begin an invocation while another was open.
    Busy {
        client: Name,
    },
    /// `idle C`: the client has no open invocation.
    Idle {
        client: Name,
    },
    /// A host stopped, or was down already.
    Down {
        host: HostNo,
    },
    /// A host was restarted, or was up already.
    Up {
        host: HostNo,
    },
    /// A change of a group's members was refused.
    Refused(ManageFault),
    /// Properties, or the criteria of a group that is to be made, were refused.
    RefusedSetting(SettingFault),
    /// A subscriber was refused.
    RefusedSubscriber(SubscribeFault),
    /// No member of the group is to be asked now whether it is alive.
    PollNone {
        group: Name,
    },
    /// No member of the group has left the monitor without an answer for too long.
    SweepNone {
        group: Name,
    },
    /// A subscriber is told of fault events from now on.
    Subscribed {
        subscriber: Name,
    },
    /// A subscriber is told of fault events no more.
    Unsubscribed {
        subscriber: Name,
    },
    /// The oldest fault event that waited for a subscriber: the member on this host, of the group
    /// with this number, crashed.
    Fault {
        subscriber: Name,
        host: HostNo,
        id: GroupId,
        group: Name,
    },
    /// No fault event waits for the subscriber.
    NoFault {
        subscriber: Name,
    },
    /// A host took a checkpoint of its group at this position; the group's time is now this.
    Checkpoint {
        group: Name,
        host: HostNo,
        position: u32,
        time: Tick,
    },
    /// No host of the group can take a checkpoint.
    CheckpointNone {
        group: Name,
    },
    /// The checkpoint couldn't be written.
    CheckpointFailed {
        group: Name,
    },
    /// A host sends the others what changed between two positions.
    Updated {
        group: Name,
        host: HostNo,
        base: u32,
        position: u32,
    },
    /// No host of the group can send an update.
    UpdateNone {
        group: Name,
    },
    /// A property's value.
    Property {
        name: Name,
        value: Bytes,
    },
    /// A group's newest version, the length and the mark of its journal, and its time.
    Show {
        group: Name,
        version: Version,
        entries: u32,
        mark: u32,
        time: Tick,
    },
    /// How a host stands in the group that is shown.
    Member {
        host: HostNo,
        role: Role,
        standing: Standing,
    },
    /// The hosts of a group's members, in order of joining.
    Locations {
        group: Name,
        members: Members,
    },
    /// A group's number.
    Id {
        group: Name,
        id: GroupId,
    },
    /// A group's newest reference, as text.
    Ref {
        group: Name,
        text: Bytes,
    },
    /// The plain reference of a group's member, as text.
    MemberRef {
        group: Name,
        host: HostNo,
        text: Bytes,
    },
    /// A request came to a host that serves no group by the name that the request gives.
    NoGroup {
        host: HostNo,
    },
    /// What a host wrote on a link, as it stands there.
    Bytes(Bytes),
    /// A link ended in order.
    LinkClosed,
    /// A link ended at bytes that are no message: what is wrong with them, and at which byte of the
    /// message.
    LinkMalformed {
        why: Why,
        place: u32,
    },
    /// A link ended at a message that is too large, of as many bytes.
    LinkTooLarge(u64),
    /// A link's host is down.
    LinkLost,
}

/// The lines of one event, in order, as the text that they are.
#[derive(Drop)]
pub struct ReportLines {
    alloc: Global,
    text: Vec<u8>,
    written: Written,
}

impl Model for ReportLines {
    ghost use Rattle.std.specs.Prelude.{◌≡◌, List};
    ghost use Rattle.std.specs.List.{flat_map};
    ghost use Rattle.ft_report.specs.Report.{report_text};
    ghost use Rattle.ft_report.specs.declared.reports.ReportLine.{ReportLine};

    ghost Value = { List ReportLine };

    ghost view = { λ r. r.written };

    ghost invariant = { λ r. r.text.items ≡ flat_map report_text r.written };
}

// Most reports have two or three lines.
const REPORT_ROOM: usize = 128;

// Where a line is the first, takes room for it and some more.
fn room_of_first(text: &mut Vec<u8>, alloc: Global) -> Result<(), NoMemory>
    ensures { OnOk result (text.new.items ≡ text.old.items) }
{
    if text.is_empty() {
        *text = Vec::with_capacity(alloc, REPORT_ROOM)?;
    }
    Ok(())
}

// Takes all lines back, where no memory is left.
fn clear(text: &mut Vec<u8>, written: &mut Written)
    ensures text { text.new.items ≡ [] }
    ensures lines { written.new ≡ [] }
{
    text.clear();
    *written = Written::new();
}

impl ReportLines {
    /// No lines. It takes no memory.
    pub fn new(alloc: Global) -> ReportLines
        ensures { result ≡ [] }
    {
        ReportLines {
            alloc,
            text: Vec::new(alloc),
            written: Written::new(),
        }
    }

    /// Adds a line, as the last; where no memory is left nothing is said of the lines.
    pub fn push(&mut self, line: ReportLine) -> Result<(), NoMemory>
        ensures { OnOk result (self.new ≡ self.old ++ line ∷ []) }
    {
        let room = room_of_first(&mut self.text, self.alloc);
        if room.is_err() || write_line(&mut self.text, self.alloc, &line).is_err() {
            clear(&mut self.text, &mut self.written);
            return Err(NoMemory);
        }
        self.written.push(WrittenLine::Whole(Snapshot::of(&line)));
        Ok(())
    }

    /// Adds what a host made of a request, as the last line; where no memory is left nothing is said of the lines.
    pub fn push_at(
        &mut self,
        host: HostNo,
        group: &Name,
        decision: Decision,
    ) -> Result<(), NoMemory>
        ensures { OnOk result (self.new ≡ self.old ++ ReportLine.At host group.now decision ∷ []) }
    {
        let room = room_of_first(&mut self.text, self.alloc);
        if room.is_err() || at_line(&mut self.text, self.alloc, host, group, decision).is_err() {
            clear(&mut self.text, &mut self.written);
            return Err(NoMemory);
        }
        self.written.push(WrittenLine::At {
            host,
            group: Snapshot::of(group),
            decision,
        });
        Ok(())
    }

    /// Adds a reply, as the last line; where no memory is left nothing is said of the lines.
    pub fn push_reply(
        &mut self,
        message: u64,
        host: HostNo,
        client: &Name,
        id: u32,
        shown: &ReportOutcome,
    ) -> Result<(), NoMemory>
        ensures { OnOk result (self.new ≡ self.old ++ ReportLine.Reply message host client.now id shown.now ∷ []) }
    {
        let room = room_of_first(&mut self.text, self.alloc);
        if room.is_err()
            || reply_line(&mut self.text, self.alloc, message, host, client, id, shown).is_err()
        {
            clear(&mut self.text, &mut self.written);
            return Err(NoMemory);
        }
        self.written.push_reply(message, host, client, id, shown);
        Ok(())
    }

    /// Adds what a host wrote on a link, as the last line; where no memory is left nothing is said of the lines.
    pub fn push_bytes(&mut self, bytes: &Bytes) -> Result<(), NoMemory>
        ensures { OnOk result (self.new ≡ self.old ++ ReportLine.Bytes bytes.now ∷ []) }
    {
        let room = room_of_first(&mut self.text, self.alloc);
        if room.is_err() || bytes_line(&mut self.text, self.alloc, bytes).is_err() {
            clear(&mut self.text, &mut self.written);
            return Err(NoMemory);
        }
        self.written.push(WrittenLine::Bytes(Snapshot::of(bytes)));
        Ok(())
    }

    /// Adds that a link was closed, as most of them are, as the last line; where no memory is left nothing is said of the
    /// lines.
    pub fn push_closed(&mut self) -> Result<(), NoMemory>
        ensures { OnOk result (self.new ≡ self.old ++ ReportLine.LinkClosed ∷ []) }
    {
        let room = room_of_first(&mut self.text, self.alloc);
        if room.is_err() || closed_line(&mut self.text).is_err() {
            clear(&mut self.text, &mut self.written);
            return Err(NoMemory);
        }
        self.written
            .push(WrittenLine::Whole(Snapshot::of(&ReportLine::LinkClosed)));
        Ok(())
    }

    /// Adds other lines, behind its own; where no memory is left nothing is said of the lines.
    pub fn append(&mut self, others: ReportLines) -> Result<(), NoMemory>
        ensures { OnOk result (self.new ≡ self.old ++ others) }
    {
        if self.text.extend_from_slice(others.text.as_slice()).is_err() {
            clear(&mut self.text, &mut self.written);
            return Err(NoMemory);
        }
        self.written.append(&others.written);
        Ok(())
    }

    /// The bytes of all lines.
    pub fn into_bytes(self) -> Bytes
        ensures { result ≡ flat_map report_text self }
    {
        Bytes::from_vec(self.text)
    }
}
