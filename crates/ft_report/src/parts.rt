//! The parts of a line: words and phrases, each as its text.
ghost use Rattle.std.specs.Prelude.{◌≡◌, ◌++◌, ◌∷◌, [], IfOk, OnOk};
ghost use Rattle.report_words.specs.Words.{phrase_text};
ghost use Rattle.ft_report.specs.Report.{completed_text, decision_text, end_text, fault_text, ignored_text, kind_text, outcome_text, own_fault, refusal_text, role_text, setting_text, standing_text, subscribe_text, why_text, with_number, with_numbers, with_version, worded_numbers, worth_text};

use crate::outcomes::{ReportOutcome, Worth};
use crate::reports::{CallEnd, Role, SettingFault, Standing, SubscribeFault};
use ft_base::{Bytes, Decision, HostNo, Ignored, Name, NoMemory, Version};
use giop_messages::Why;
use group_model::ManageFault;
use report_words::Word::{Fixed, Made, Number, Text};
use report_words::{octets, phrase, push_numbered, push_octets, push_phrase, push_signed};
use std::alloc::Global;
use sys_faults::{Completed, SysFault, SysKind};

fn completed_bytes(completed: Completed) -> &'static [u8]
    ensures { result.now ≡ completed_text completed }
{
    match completed {
        Completed::Yes => b"yes",
        Completed::No => b"no",
        Completed::Maybe => b"maybe",
    }
}

pub fn role_bytes(role: Role) -> &'static [u8]
    ensures { result.now ≡ role_text role }
{
    match role {
        Role::Primary => b"primary",
        Role::Backup => b"backup",
        Role::Active => b"active",
        Role::Former => b"former",
    }
}

pub fn why_bytes(why: Why) -> &'static [u8]
    ensures { result.now ≡ why_text why }
{
    match why {
        Why::Magic => b"magic",
        Why::Version => b"version",
        Why::Flags => b"flags",
        Why::Kind => b"kind",
        Why::Length => b"length",
        Why::Open => b"open",
        Why::Cut => b"cut",
        Why::Short => b"short",
        Why::BadBool => b"badbool",
        Why::BadString => b"badstring",
        Why::BadOrder => b"badorder",
        Why::Address => b"address",
        Why::Status => b"status",
    }
}

fn push_worth(text: &mut Vec<u8>, worth: &Worth) -> Result<(), NoMemory>
    ensures { OnOk result (text.new.items ≡ text.old.items ++ worth_text worth.now) }
{
    match worth {
        Worth::Void => push_phrase(text, &[Fixed(b"void")]),
        Worth::Number(number) => push_signed(text, *number),
        Worth::Flag(true) => push_phrase(text, &[Fixed(b"true")]),
        Worth::Flag(false) => push_phrase(text, &[Fixed(b"false")]),
        Worth::Octets(bytes) => push_octets(text, bytes.bytes()),
    }
}

fn push_kind(text: &mut Vec<u8>, kind: &SysKind) -> Result<(), NoMemory>
    ensures { OnOk result (text.new.items ≡ text.old.items ++ kind_text kind.now) }
{
    if let SysKind::Unknown(id) = kind {
        return push_octets(text, id.bytes());
    }
    match kind.name() {
        Some(name) => push_phrase(text, &[Text(name)]),
        None => unreachable!(),
    }
}

/// A word, a group's name and the version of a view.
pub fn with_version(
    alloc: Global,
    word: &'static [u8],
    group: &Name,
    version: Version,
) -> Result<Bytes, NoMemory>
    ensures { IfOk result (λ bytes. bytes ≡ with_version word.now group.now version) }
{
    phrase(
        alloc,
        &[
            Fixed(word),
            Text(group.bytes()),
            Number(u64::from(version.0)),
        ],
    )
}

fn push_fault(text: &mut Vec<u8>, fault: &SysFault) -> Result<(), NoMemory>
    ensures { OnOk result (text.new.items ≡ text.old.items ++ fault_text fault.now) }
{
    push_phrase(text, &[Fixed(b"system")])?;
    text.push(b' ')?;
    push_kind(text, &fault.kind)?;
    text.push(b' ')?;
    push_phrase(
        text,
        &[
            Number(u64::from(fault.minor)),
            Fixed(completed_bytes(fault.completed)),
        ],
    )
}

fn push_version(
    text: &mut Vec<u8>,
    word: &'static [u8],
    group: &Name,
    version: Version,
) -> Result<(), NoMemory>
    ensures { OnOk result (text.new.items ≡ text.old.items ++ with_version word.now group.now version) }
{
    push_phrase(
        text,
        &[
            Fixed(word),
            Text(group.bytes()),
            Number(u64::from(version.0)),
        ],
    )
}

/// Writes what a request came to.
pub fn push_outcome(
    text: &mut Vec<u8>,
    alloc: Global,
    shown: &ReportOutcome,
) -> Result<(), NoMemory>
    ensures { OnOk result (text.new.items ≡ text.old.items ++ outcome_text shown.now) }
{
    match shown {
        ReportOutcome::Value(worth) => {
            text.extend_from_slice(b"value ")?;
            push_worth(text, worth)
        }
        ReportOutcome::User(name) => push_phrase(text, &[Fixed(b"user"), Text(name.bytes())]),
        ReportOutcome::System(fault) => push_fault(text, fault),
        ReportOutcome::Forward { group, version } => push_version(
            text, b"forward", group, *version,
        ),
        ReportOutcome::ForwardPerm { group, version } => {
            push_version(text, b"forward-perm", group, *version)
        }
    }
}

// A word and a number.
fn with_number(alloc: Global, word: &'static [u8], number: u64) -> Result<Bytes, NoMemory>
    ensures { IfOk result (λ bytes. bytes ≡ with_number word.now number) }
{
    phrase(alloc, &[Fixed(word), Number(number)])
}

// A number behind a word, and another behind another word.
fn worded_numbers(
    alloc: Global,
    first_word: &'static [u8],
    first: u64,
    second_word: &'static [u8],
    second: u64,
) -> Result<Bytes, NoMemory>
    ensures { IfOk result (λ bytes. bytes ≡ worded_numbers first_word.now first second_word.now second) }
{
    phrase(
        alloc,
        &[
            Fixed(first_word),
            Number(first),
            Fixed(second_word),
            Number(second),
        ],
    )
}

// Writes a word and a number.
fn push_number(text: &mut Vec<u8>, word: &'static [u8], number: u64) -> Result<(), NoMemory>
    ensures { OnOk result (text.new.items ≡ text.old.items ++ with_number word.now number) }
{
    text.extend_from_slice(word)?;
    push_numbered(text, b" ", number)
}

// Writes a word and two numbers.
fn push_numbers(
    text: &mut Vec<u8>,
    word: &'static [u8],
    first: u64,
    second: u64,
) -> Result<(), NoMemory>
    ensures { OnOk result (text.new.items ≡ text.old.items ++ with_numbers word.now first second) }
{
    push_phrase(text, &[Fixed(word), Number(first), Number(second)])
}

fn push_versions(
    text: &mut Vec<u8>,
    word: &'static [u8],
    first: Version,
    second: Version,
) -> Result<(), NoMemory>
    ensures { OnOk result (text.new.items ≡ text.old.items ++ with_numbers word.now first.0 second.0) }
{
    push_numbers(text, word, u64::from(first.0), u64::from(second.0))
}

/// Writes what a host made of a request.
pub fn push_decision(text: &mut Vec<u8>, decision: Decision) -> Result<(), NoMemory>
    ensures { OnOk result (text.new.items ≡ text.old.items ++ decision_text decision) }
{
    match decision {
        Decision::Append(place) => push_number(text, b"append", u64::from(place)),
        Decision::Repeat(place) => push_number(text, b"repeat", u64::from(place)),
        Decision::Expired { expiration, now } => {
            push_numbers(text, b"expired", expiration.0, now.0)
        }
        Decision::Other(place) => push_number(text, b"other", u64::from(place)),
        Decision::Full(count) => push_number(text, b"full", u64::from(count)),
        Decision::LogFault => push_phrase(text, &[Fixed(b"logfault")]),
        Decision::Newer { asked, newest } => push_versions(text, b"newer", asked, newest),
        Decision::Empty(known) => push_number(text, b"empty", u64::from(known.0)),
        Decision::Older { asked, known } => push_versions(text, b"older", asked, known),
        Decision::Stranger(known) => push_number(text, b"stranger", u64::from(known.0)),
        Decision::Backup(known) => push_number(text, b"backup", u64::from(known.0)),
        Decision::Deposed { known, newest } => push_versions(text, b"deposed", known, newest),
        Decision::BadOperation => push_phrase(text, &[Fixed(b"badop")]),
        Decision::Marshal(place) => push_number(text, b"marshal", u64::from(place)),
        Decision::Long(count) => push_number(text, b"long", u64::from(count)),
        Decision::Context(id) => push_number(text, b"context", u64::from(id)),
    }
}

// An exception that the client raises by itself: nobody knows whether the request was run.
fn own_fault(kind: SysKind, minor: u32) -> SysFault
    ensures { result ≡ own_fault kind minor }
{
    SysFault {
        kind,
        minor,
        completed: Completed::Maybe,
    }
}

// Writes an exception of the client's own, and the numbers that led to it.
fn push_own(
    text: &mut Vec<u8>,
    alloc: Global,
    fault: &SysFault,
    first_word: &'static [u8],
    first: u64,
    second_word: &'static [u8],
    second: u64,
) -> Result<(), NoMemory>
    ensures { OnOk result (text.new.items ≡ text.old.items ++ phrase_text (fault_text fault.now ∷ worded_numbers first_word.now first second_word.now second ∷ [])) }
{
    push_fault(text, fault)?;
    text.push(b' ')?;
    push_phrase(
        text,
        &[
            Fixed(first_word),
            Number(first),
            Fixed(second_word),
            Number(second),
        ],
    )
}

/// Writes how a client's invocation ended.
pub fn push_end(text: &mut Vec<u8>, alloc: Global, end: &CallEnd) -> Result<(), NoMemory>
    ensures { OnOk result (text.new.items ≡ text.old.items ++ end_text end.now) }
{
    match end {
        CallEnd::Shown(shown) => push_outcome(text, alloc, shown),
        CallEnd::NoResponse { expiration, now } => {
            let fault = own_fault(SysKind::NoResponse, 1);
            push_own(text, alloc, &fault, b"exp", expiration.0, b"now", now.0)
        }
        CallEnd::Transient { faults, profiles } => {
            let fault = own_fault(SysKind::Transient, 1);
            let faults = u64::from(*faults);
            let profiles = u64::from(*profiles);
            push_own(
                text,
                alloc,
                &fault,
                b"faults",
                faults,
                b"profiles",
                profiles,
            )
        }
        CallEnd::IdsSpent => push_fault(text, &own_fault(SysKind::ImpLimit, 3)),
    }
}

pub fn ignored_bytes(alloc: Global, why: Ignored) -> Result<Bytes, NoMemory>
    ensures { IfOk result (λ bytes. bytes ≡ ignored_text why) }
{
    match why {
        Ignored::NotLoaded => Bytes::of(alloc, b"not-loaded"),
        Ignored::Position { sent, at } => {
            worded_numbers(alloc, b"position", u64::from(sent), b"at", u64::from(at))
        }
        Ignored::From { from, at } => {
            worded_numbers(alloc, b"from", u64::from(from), b"at", u64::from(at))
        }
        Ignored::Order { index, at } => {
            worded_numbers(alloc, b"order", u64::from(index), b"at", u64::from(at))
        }
        Ignored::Known { sent, known } => {
            worded_numbers(
                alloc,
                b"view",
                u64::from(sent.0),
                b"known",
                u64::from(known.0),
            )
        }
    }
}

fn with_host(alloc: Global, word: &'static [u8], host: HostNo) -> Result<Bytes, NoMemory>
    ensures { IfOk result (λ bytes. bytes ≡ with_number word.now host.0) }
{
    with_number(alloc, word, u64::from(host.0))
}

pub fn refusal_bytes(alloc: Global, fault: ManageFault) -> Result<Bytes, NoMemory>
    ensures { IfOk result (λ bytes. bytes ≡ refusal_text fault) }
{
    match fault {
        ManageFault::ObjectGroupNotFound => Bytes::of(alloc, b"ObjectGroupNotFound"),
        ManageFault::NoFactory(host) => with_host(alloc, b"NoFactory", host),
        ManageFault::MemberAlreadyPresent(host) => with_host(alloc, b"MemberAlreadyPresent", host),
        ManageFault::ObjectNotAdded(count) => {
            with_number(alloc, b"ObjectNotAdded", u64::from(count))
        }
        ManageFault::ObjectNotCreated(host) => with_host(alloc, b"ObjectNotCreated", host),
        ManageFault::BadReplicationStyle => Bytes::of(alloc, b"BadReplicationStyle"),
        ManageFault::MemberNotFound(host) => with_host(alloc, b"MemberNotFound", host),
        ManageFault::PrimaryNotSet(host) => with_host(alloc, b"PrimaryNotSet", host),
        ManageFault::ViewsFull(count) => with_number(alloc, b"NO_RESOURCES", u64::from(count)),
        ManageFault::LogFault => Bytes::of(alloc, b"PERSIST_STORE"),
        ManageFault::NoMemory => Bytes::of(alloc, b"NO_MEMORY"),
    }
}

/// Writes why properties, or a new group's criteria, were refused.
pub fn push_setting(text: &mut Vec<u8>, fault: SettingFault) -> Result<(), NoMemory>
    ensures { OnOk result (text.new.items ≡ text.old.items ++ setting_text fault) }
{
    match fault {
        SettingFault::InvalidProperty(place) => {
            push_number(text, b"InvalidProperty", u64::from(place))
        }
        SettingFault::UnsupportedProperty(place) => {
            push_number(text, b"UnsupportedProperty", u64::from(place))
        }
        SettingFault::InvalidCriteria(place) => {
            push_number(text, b"InvalidCriteria", u64::from(place))
        }
        SettingFault::CannotMeetCriteria { initial, minimum } => {
            push_numbers(
                text,
                b"CannotMeetCriteria",
                u64::from(initial),
                u64::from(minimum),
            )
        }
        SettingFault::TooFew { fit, minimum } => {
            push_numbers(text, b"TooFew", u64::from(fit), u64::from(minimum))
        }
    }
}

/// Writes why a subscriber was refused.
pub fn push_subscribe(text: &mut Vec<u8>, fault: SubscribeFault) -> Result<(), NoMemory>
    ensures { OnOk result (text.new.items ≡ text.old.items ++ subscribe_text fault) }
{
    match fault {
        SubscribeFault::BadFilter(place) => push_number(text, b"BadFilter", u64::from(place)),
        SubscribeFault::Full(count) => push_number(text, b"Full", u64::from(count)),
    }
}

// A host that is loaded: the version that it knows, its place in the journal, and its state.
fn loaded_bytes(
    alloc: Global,
    known: Version,
    position: u32,
    state: &Bytes,
) -> Result<Bytes, NoMemory>
    ensures { IfOk result (λ bytes. bytes ≡ standing_text (Standing.At known position state.now)) }
{
    let state = octets(alloc, state)?;
    let bytes = phrase(
        alloc,
        &[
            Fixed(b"known"),
            Number(u64::from(known.0)),
            Fixed(b"at"),
            Number(u64::from(position)),
            Fixed(b"state"),
            Made(state.bytes()),
        ],
    )?;
    Ok(bytes)
}

pub fn standing_bytes(alloc: Global, standing: &Standing) -> Result<Bytes, NoMemory>
    ensures { IfOk result (λ bytes. bytes ≡ standing_text standing.now) }
{
    match standing {
        Standing::At {
            known,
            position,
            state,
        } => loaded_bytes(alloc, *known, *position, state),
        Standing::Blank { known } => phrase(
            alloc,
            &[Fixed(b"known"), Number(u64::from(known.0)), Fixed(b"blank")],
        ),
        Standing::Down => Bytes::of(alloc, b"down"),
    }
}
