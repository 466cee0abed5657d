//! What was heard, as it is printed.

use anyhow::Result;
use client_calls::Hearing;
use client_retry::{End, Heard};
use octet_words::outcome_text;
use std::alloc::Global;
use sys_faults::SysFault;

fn fault_text(alloc: Global, fault: &SysFault) -> Result<String> {
    let name = match fault.kind.name() {
        Some(name) => std::str::from_utf8(name)?,
        None => "another",
    };
    Ok(format!(in alloc; "{name} {}", fault.minor)?)
}

fn heard_text(alloc: Global, heard: &Heard) -> Result<String> {
    match heard {
        Heard::Outcome(outcome) => outcome_text(alloc, outcome),
        Heard::System(fault) => fault_text(alloc, fault),
        Heard::Forward(group) => Ok(format!(in alloc; "forward {}", group.version.0)?),
        Heard::Unreadable => Ok(String::from_str(alloc, "unreadable")?),
    }
}

/// What was heard of an attempt.
pub fn hearing_text(alloc: Global, hearing: &Hearing) -> Result<String> {
    match hearing {
        Hearing::Reply { id, heard } => {
            let heard = heard_text(alloc, heard)?;
            Ok(format!(in alloc; "reply {id} {heard}")?)
        }
        Hearing::Dial => Ok(String::from_str(alloc, "no dial")?),
        Hearing::Failed => Ok(String::from_str(alloc, "failed")?),
        Hearing::Ended => Ok(String::from_str(alloc, "ended")?),
    }
}

/// How a call ended.
pub fn end_text(alloc: Global, end: &End) -> Result<String> {
    match end {
        End::Outcome(outcome) => outcome_text(alloc, outcome),
        End::System(fault) => fault_text(alloc, fault),
        End::NoResponse { .. } => Ok(String::from_str(alloc, "NO_RESPONSE")?),
        End::Transient { faults, profiles } => {
            Ok(format!(in alloc; "TRANSIENT {faults} {profiles}")?)
        }
        End::IdsSpent => Ok(String::from_str(alloc, "no ids")?),
    }
}
