//! A client waits a little behind a fault, so that a member that died is reported before the faults of a call are spent.
//! No contract rests on it.

use client_retry::Act;
use std::thread;
use std::time::{Clock, Duration};

/// Pauses are doubled as often as this.
const DOUBLINGS: u32 = 4;

/// Waits where a client sends again behind a fault: 1, 2, 4, 8 and then 16 milliseconds. Gives how often it waited in
/// this call.
pub(crate) fn pause<R: Clock>(rt: &R, act: &Act, pauses: u32) -> u32 {
    match act {
        Act::Send { .. } => {
            thread::sleep(rt, Duration::from_millis(1 << pauses.min(DOUBLINGS)));
            pauses.saturating_add(1)
        }
        Act::Adopted { .. } | Act::Done(_) | Act::Nothing => pauses,
    }
}
