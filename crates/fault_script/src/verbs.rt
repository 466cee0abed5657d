ghost use Rattle.std.specs.Prelude.{◌≡◌};
ghost use Rattle.fault_script.specs.Parts.{by_word};
ghost use Rattle.fault_script.specs.Grammar.{verb_word};
ghost use Rattle.fault_script.specs.Forms.{change_verbs, fault_verbs, group_verbs, verb};

use crate::lines::MemberChange;

/// The first words of the lines that say nothing but a name behind it.
#[derive(Clone, Copy, Debug, PartialEq, Eq)]
pub(crate) enum NameVerb {
    Client,
    Timeout,
    Show,
    Locations,
    Id,
    Ref,
    Delete,
    Poll,
    Sweep,
    Unsubscribe,
    Pull,
    Checkpoint,
    Update,
    LogFail,
}

/// The first words of lines.
#[derive(Clone, Copy, Debug, PartialEq, Eq)]
pub(crate) enum Verb {
    Hosts,
    Group,
    Call,
    Bind,
    Deliver,
    Tick,
    MemberRef,
    Inject,
    Change(MemberChange),
    Name(NameVerb),
    Crash,
    Restart,
    Create,
    Set,
    Unset,
    Get,
    Grow,
    Subscribe,
}

fn find_change_verb(first: &[u8]) -> Option<Verb>
    ensures { result ≡ by_word verb_word change_verbs first.now }
{
    if first == b"add".as_slice() {
        Some(Verb::Change(MemberChange::Add))
    } else if first == b"remove".as_slice() {
        Some(Verb::Change(MemberChange::Remove))
    } else if first == b"primary".as_slice() {
        Some(Verb::Change(MemberChange::Primary))
    } else if first == b"report".as_slice() {
        Some(Verb::Change(MemberChange::Report))
    } else {
        None
    }
}

/// The line about faults, states, updates and logs, or a change of members, that a first word begins.
fn find_fault_verb(first: &[u8]) -> Option<Verb>
    ensures { result ≡ by_word verb_word fault_verbs first.now }
{
    if first == b"poll".as_slice() {
        Some(Verb::Name(NameVerb::Poll))
    } else if first == b"sweep".as_slice() {
        Some(Verb::Name(NameVerb::Sweep))
    } else if first == b"subscribe".as_slice() {
        Some(Verb::Subscribe)
    } else if first == b"unsubscribe".as_slice() {
        Some(Verb::Name(NameVerb::Unsubscribe))
    } else if first == b"pull".as_slice() {
        Some(Verb::Name(NameVerb::Pull))
    } else if first == b"checkpoint".as_slice() {
        Some(Verb::Name(NameVerb::Checkpoint))
    } else if first == b"update".as_slice() {
        Some(Verb::Name(NameVerb::Update))
    } else if first == b"logfail".as_slice() {
        Some(Verb::Name(NameVerb::LogFail))
    } else {
        find_change_verb(first)
    }
}

/// The line about groups and their properties, or one of those above, that a first word begins.
fn find_group_verb(first: &[u8]) -> Option<Verb>
    ensures { result ≡ by_word verb_word group_verbs first.now }
{
    if first == b"create".as_slice() {
        Some(Verb::Create)
    } else if first == b"set".as_slice() {
        Some(Verb::Set)
    } else if first == b"unset".as_slice() {
        Some(Verb::Unset)
    } else if first == b"get".as_slice() {
        Some(Verb::Get)
    } else if first == b"grow".as_slice() {
        Some(Verb::Grow)
    } else if first == b"delete".as_slice() {
        Some(Verb::Name(NameVerb::Delete))
    } else {
        find_fault_verb(first)
    }
}

/// The line that a first word begins.
pub(crate) fn find_verb(first: &[u8]) -> Option<Verb>
    ensures { result ≡ verb first.now }
{
    if first == b"hosts".as_slice() {
        Some(Verb::Hosts)
    } else if first == b"group".as_slice() {
        Some(Verb::Group)
    } else if first == b"client".as_slice() {
        Some(Verb::Name(NameVerb::Client))
    } else if first == b"call".as_slice() {
        Some(Verb::Call)
    } else if first == b"bind".as_slice() {
        Some(Verb::Bind)
    } else if first == b"timeout".as_slice() {
        Some(Verb::Name(NameVerb::Timeout))
    } else if first == b"deliver".as_slice() {
        Some(Verb::Deliver)
    } else if first == b"tick".as_slice() {
        Some(Verb::Tick)
    } else if first == b"show".as_slice() {
        Some(Verb::Name(NameVerb::Show))
    } else if first == b"locations".as_slice() {
        Some(Verb::Name(NameVerb::Locations))
    } else if first == b"id".as_slice() {
        Some(Verb::Name(NameVerb::Id))
    } else if first == b"ref".as_slice() {
        Some(Verb::Name(NameVerb::Ref))
    } else if first == b"member".as_slice() {
        Some(Verb::MemberRef)
    } else if first == b"inject".as_slice() {
        Some(Verb::Inject)
    } else if first == b"crash".as_slice() {
        Some(Verb::Crash)
    } else if first == b"restart".as_slice() {
        Some(Verb::Restart)
    } else {
        find_group_verb(first)
    }
}
