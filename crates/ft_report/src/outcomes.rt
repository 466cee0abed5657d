ghost use Rattle.std.specs.Prelude.{◌≡◌, ◌<◌, ◌+◌, ◌^◌, ◌∷◌, [], Some, length, IfOk};
ghost use Rattle.ft_base.specs.Canonical.{IsCanonical, one_of};
ghost use Rattle.ft_report.specs.Worth.{printed_value, worth_in, IsWorth};

use cdr_codec::{CdrReader, FieldFault, Order, canonical_forms_are_read, read_value};
use ft_base::{Bytes, Name, NoMemory, Par, Value, Version};
use std::alloc::Global;
use sys_faults::SysFault;

/// A result's value as it is printed.
#[derive(Debug, Drop)]
pub enum Worth {
    Void,
    Number(i64),
    Flag(bool),
    Octets(Bytes),
}

/// What a request came to, as it is printed.
#[derive(Debug, Drop)]
pub enum ReportOutcome {
    Value(Worth),
    User(Name),
    System(SysFault),
    /// The client is turned, for this request alone, to the reference of the group's view of this version.
    Forward { group: Name, version: Version },
    /// The same from now on.
    ForwardPerm { group: Name, version: Version },
}

impl Worth {
    /// An equal value.
    pub fn copy(&self, alloc: Global) -> Result<Worth, NoMemory>
        ensures { IfOk result (λ worth. worth ≡ self.now) }
    {
        match self {
            Worth::Void => Ok(Worth::Void),
            Worth::Number(number) => Ok(Worth::Number(*number)),
            Worth::Flag(flag) => Ok(Worth::Flag(*flag)),
            Worth::Octets(octets) => {
                let octets = octets.copy(alloc)?;
                Ok(Worth::Octets(octets))
            }
        }
    }
}

impl ReportOutcome {
    /// An equal one.
    pub fn copy(&self, alloc: Global) -> Result<ReportOutcome, NoMemory>
        ensures { IfOk result (λ shown. shown ≡ self.now) }
    {
        match self {
            ReportOutcome::Value(worth) => {
                let worth = worth.copy(alloc)?;
                Ok(ReportOutcome::Value(worth))
            }
            ReportOutcome::User(name) => {
                let name = name.copy(alloc)?;
                Ok(ReportOutcome::User(name))
            }
            ReportOutcome::System(fault) => {
                let fault = fault.copy(alloc)?;
                Ok(ReportOutcome::System(fault))
            }
            ReportOutcome::Forward { group, version } => {
                let version = *version;
                let group = group.copy(alloc)?;
                Ok(ReportOutcome::Forward { group, version })
            }
            ReportOutcome::ForwardPerm { group, version } => {
                let version = *version;
                let group = group.copy(alloc)?;
                Ok(ReportOutcome::ForwardPerm { group, version })
            }
        }
    }
}

fn printed_value(value: Value) -> Worth
    ensures { result ≡ printed_value value }
{
    match value {
        Value::I64(number) => Worth::Number(number),
        Value::U32(number) => Worth::Number(i64::from(number)),
        Value::Bool(flag) => Worth::Flag(flag),
        Value::Text(text) => Worth::Octets(text),
        Value::Octets(octets) => Worth::Octets(octets),
    }
}

/// More bytes than an outcome has.
const VALUE_ROOM: usize = 1_048_576;

fn worth_of_one(alloc: Global, par: Par, bytes: &[u8]) -> Result<Worth, NoMemory>
    ensures value { IfOk result (λ printed. printed ≡ worth_in (Some par) bytes.now) }
    ensures worth { IsCanonical (par ∷ []) bytes.now → IfOk result (λ printed. IsWorth (Some par) bytes.now printed) }
{
    canonical_forms_are_read();
    if bytes.len() > VALUE_ROOM {
        return Err(NoMemory);
    }
    let mut reader = CdrReader::new(Order::Big, 0, bytes);
    match read_value(alloc, par, &mut reader) {
        Ok(value) => Ok(printed_value(value)),
        Err(FieldFault::NoMemory) => Err(NoMemory),
        Err(FieldFault::Bad(_)) => Ok(Worth::Void),
    }
}

/// A result's value as it is printed: a text as its octets. What is no value of this type is void.
pub fn worth_of(alloc: Global, gives: Option<Par>, value: &Bytes) -> Result<Worth, NoMemory>
    ensures value { IfOk result (λ printed. printed ≡ worth_in gives value.now) }
    ensures worth { IsCanonical (one_of gives) value.now → IfOk result (λ printed. IsWorth gives value.now printed) }
{
    match gives {
        None => Ok(Worth::Void),
        Some(par) => worth_of_one(alloc, par, value.bytes()),
    }
}
