ghost use Rattle.std.specs.Prelude.{◌≡◌, ℕ, ◌++◌, List, codes, IfOk};

use ft_base::{Bytes, Name, NoMemory, Stop, Style};
use property_manager::Property;
use std::alloc::Global;
use std::marker::Model;

/// Words in order, each of any bytes.
#[derive(Debug, Drop)]
pub struct Words {
    words: Vec<Bytes>,
}

impl Model for Words {
    ghost Value = { List (List ℕ) };

    ghost view = { λ w. w.words.items };
}

/// Hosts by their numbers, in order.
#[derive(Debug, Drop)]
pub struct HostNumbers {
    numbers: Vec<u64>,
}

impl Model for HostNumbers {
    ghost Value = { List ℕ };

    ghost view = { λ h. h.numbers.items };
}

/// A kind of servant, by the word that names it.
#[derive(Clone, Copy, Debug, PartialEq, Eq)]
pub enum KindWord {
    Account,
    Store,
    Queue,
}

/// At which level a property is set for groups that are made from now on.
#[derive(Clone, Copy, Debug, PartialEq, Eq)]
pub enum Level {
    /// For all of them.
    Default,
    /// For those of a kind.
    Type(KindWord),
}

/// The criteria of a group that is made: properties in their order.
#[derive(Debug, Drop)]
pub struct Criteria {
    properties: Vec<Property>,
}

impl Model for Criteria {
    ghost use Rattle.std.specs.Prelude.{List};
    ghost use Rattle.property_manager.specs.declared.settings.Property.{Property};

    ghost Value = { List Property };

    ghost view = { λ c. c.properties.items };
}

/// What a line does to a group's members.
#[derive(Clone, Copy, Debug, PartialEq, Eq)]
pub enum MemberChange {
    /// `add`: a host joins the members.
    Add,
    /// `remove`: a member leaves.
    Remove,
    /// `primary`: a member becomes the primary.
    Primary,
    /// `report`: a member is reported as faulty.
    Report,
}

/// A line of a script. A host or a message has its number; one that 64 bits can't keep is the greatest
/// that they can, which no host and no message has.
#[derive(Debug, Drop)]
pub enum Line {
    /// `hosts N`: the hosts 0 to N-1 are up.
    Hosts(u64),
    /// `group G KIND STYLE H..`: a group of these members.
    Group {
        name: Name,
        kind: KindWord,
        style: Style,
        members: HostNumbers,
    },
    /// `client C`.
    Client(Name),
    /// `call C G OP WORD..`: an invocation. What the words mean depends on the group's kind.
    Call {
        client: Name,
        group: Name,
        op: Name,
        words: Words,
    },
    /// `bind C G`: the client goes by the group's newest reference from now on.
    Bind {
        client: Name,
        group: Name,
    },
    /// `timeout C`: the client's last attempt gets no reply.
    Timeout(Name),
    /// `deliver K`: message K arrives. Behind it `crash append` or `crash execute`: the host stops in
    /// the middle of what it does.
    Deliver {
        number: u64,
        stop: Stop,
    },
    /// `tick N`: time goes on.
    Tick(u32),
    /// `show G`: prints the group.
    Show(Name),
    /// `locations G`: prints the hosts of the group's members.
    Locations(Name),
    /// `id G`: prints the group's number.
    Id(Name),
    /// `ref G`: prints the group's newest reference.
    Ref(Name),
    /// `member G H`: prints the plain reference of the member on a host.
    MemberRef {
        group: Name,
        host: u64,
    },
    /// `inject H HEX`: the bytes of a whole link, as a client has sent them to a host.
    Inject {
        host: u64,
        bytes: Bytes,
    },
    /// `add G H`, `remove G H`, `primary G H`, `report G H`.
    Change {
        change: MemberChange,
        group: Name,
        host: u64,
    },
    /// `crash H`: the host goes down.
    Crash(u64),
    /// `restart H`: the host is up again.
    Restart(u64),
    /// `create G KIND P=V..`: a group by these criteria.
    Create {
        name: Name,
        kind: KindWord,
        criteria: Criteria,
    },
    /// `set default P V`, `set type KIND P V`: the property of groups that are made from now on.
    Set {
        level: Level,
        property: Property,
    },
    /// `set group G P V`: the property of this group.
    SetGroup {
        group: Name,
        property: Property,
    },
    /// `unset default P`, `unset type KIND P`: the level says nothing of the property any more.
    Unset {
        level: Level,
        name: Name,
    },
    /// `get default P`, `get type KIND P`: prints the property of groups that are made from now on.
    Get {
        level: Level,
        name: Name,
    },
    /// `get group G P`: prints the property of this group.
    GetGroup {
        group: Name,
        name: Name,
    },
    /// `grow G H`: a new member on the host.
    Grow {
        group: Name,
        host: u64,
    },
    /// `delete G`: the group is no more.
    Delete(Name),
    /// `poll G`: members that are due are asked whether they are alive.
    Poll(Name),
    /// `sweep G`: members that haven't answered in time are reported as faulty.
    Sweep(Name),
    /// `subscribe S FILTER`: a subscriber to faults. The filter is a word as it stands; whether it is one
    /// is judged with the line's effect.
    Subscribe {
        subscriber: Name,
        filter: Bytes,
    },
    /// `unsubscribe S`: the subscriber is told nothing any more.
    Unsubscribe(Name),
    /// `pull S`: prints the faults that the subscriber wasn't told yet.
    Pull(Name),
    /// `checkpoint G`: the group's log begins anew with a state.
    Checkpoint(Name),
    /// `update G`: the backups of a warm group are told what its primary has run.
    Update(Name),
    /// `logfail G`: the next write of the group's log fails.
    LogFail(Name),
}

/// What there are only so many of.
#[derive(Clone, Copy, Debug, PartialEq, Eq)]
pub enum LimitName {
    /// Bytes of a script.
    Script,
    /// Bytes of a line.
    Line,
    Hosts,
    Groups,
    /// Members of a group.
    Members,
    Clients,
    /// Entries of all journals.
    Entries,
    /// Messages that were sent.
    Messages,
    /// Bytes in messages.
    Bytes,
    /// Faults that were reported.
    Faults,
}

/// Why a line is refused.
#[derive(Clone, Copy, Debug, PartialEq, Eq)]
pub enum LineFault {
    /// It is of no form, or a number or an argument is out of its range.
    Syntax,
    /// It names something that isn't there.
    Unknown,
    /// It makes something that was made before.
    Again,
    /// There would be too much of this.
    Limit(LimitName),
    /// Out of memory.
    NoMemory,
}

impl From<NoMemory> for LineFault {
    ghost use Rattle.fault_script.specs.declared.lines.LineFault.TheVariants.{NoMemory};

    ghost from_gives = { λ _ e. e ≡ NoMemory };

    fn from(_error: NoMemory) -> LineFault {
        LineFault::NoMemory
    }
}

impl Words {
    ghost use Rattle.fault_script.specs.Words.{texts};

    /// Copies of these words.
    pub(crate) fn of(alloc: Global, words: &[&[u8]]) -> Result<Words, NoMemory>
        ensures { IfOk result (λ copies. copies ≡ texts words.now) }
    {
        let mut copies = Vec::new(alloc);
        for word in words {
            copies.push(Bytes::of(alloc, *word)?)?;
        }
        Ok(Words { words: copies })
    }

    /// These words.
    pub fn from_vec(words: Vec<Bytes>) -> Words
        ensures { result ≡ words.items }
    {
        Words { words }
    }

    /// The words themselves.
    pub fn as_slice(&self) -> &[Bytes]
        ensures { result.now ≡ self.now }
    {
        self.words.as_slice()
    }
}

impl HostNumbers {
    /// Hosts of these numbers.
    pub fn from_vec(numbers: Vec<u64>) -> HostNumbers
        ensures { result ≡ numbers.items }
    {
        HostNumbers { numbers }
    }

    /// The numbers themselves.
    pub fn as_slice(&self) -> &[u64]
        ensures { result.now ≡ self.now }
    {
        self.numbers.as_slice()
    }
}

impl Criteria {
    /// These criteria.
    pub fn from_vec(properties: Vec<Property>) -> Criteria
        ensures { result ≡ properties.items }
    {
        Criteria { properties }
    }

    /// The properties themselves.
    pub fn as_slice(&self) -> &[Property]
        ensures { result.now ≡ self.now }
    {
        self.properties.as_slice()
    }
}

impl LimitName {
    ghost use Rattle.fault_script.specs.Faults.{limit_text};

    fn text(self) -> &'static [u8]
        ensures { result.now ≡ codes "limit " ++ limit_text self }
    {
        match self {
            LimitName::Script => b"limit script",
            LimitName::Line => b"limit line",
            LimitName::Hosts => b"limit hosts",
            LimitName::Groups => b"limit groups",
            LimitName::Members => b"limit members",
            LimitName::Clients => b"limit clients",
            LimitName::Entries => b"limit entries",
            LimitName::Messages => b"limit messages",
            LimitName::Bytes => b"limit bytes",
            LimitName::Faults => b"limit faults",
        }
    }
}

impl LineFault {
    ghost use Rattle.fault_script.specs.Faults.{fault_text};

    /// The fault as it is printed behind the number of its line.
    pub fn text(self) -> &'static [u8]
        ensures { result.now ≡ fault_text self }
    {
        match self {
            LineFault::Syntax => b"syntax",
            LineFault::Unknown => b"unknown",
            LineFault::Again => b"again",
            LineFault::Limit(name) => name.text(),
            LineFault::NoMemory => b"no memory",
        }
    }
}
