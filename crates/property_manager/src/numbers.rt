//! The values that are numbers.
ghost use Rattle.std.specs.Prelude.{◌≡◌, ◌+◌, ◌<◌, ◌≤◌, length, take, drop, position, IfSome, option_map};
ghost use Rattle.property_manager.specs.Numbers.{bounded, replicas, ticks, is_slash, interval_and_timeout};

use decimal_numbers::read_number;
use ft_base::Tick;

/// The most replicas that a value asks for.
pub const REPLICAS_LIMIT: u16 = 16;

/// The most ticks that a value says.
pub const TICKS_LIMIT: u64 = 4_611_686_018_427_387_904;

/// When a member is asked again, and by when it must have answered
/// (chapter 23, `FaultMonitoringIntervalAndTimeoutValue`).
#[derive(Clone, Copy, Debug, PartialEq, Eq)]
pub struct IntervalAndTimeout {
    pub interval: Tick,
    pub timeout: Tick,
}

/// The number that a text is, if that is at most the limit.
#[tactic(auto, unfolding(crate::specs::Numbers::bounded))]
pub(crate) fn bounded(text: &[u8], limit: u128) -> Option<u128>
    ensures value { result ≡ bounded limit text.now }
    ensures within { IfSome result (λ value. value ≤ limit) }
{
    let value = read_number(text)?;
    if value <= limit { Some(value) } else { None }
}

/// The number of replicas that a value is.
pub fn number_of_replicas(text: &[u8]) -> Option<u16>
    ensures value { result ≡ replicas text.now }
    ensures within { IfSome result (λ value. value ≤ REPLICAS_LIMIT) }
{
    match bounded(text, 16) {
        None => None,
        Some(value) => Some(value as u16),
    }
}

/// The number of ticks that a value is.
pub fn number_of_ticks(text: &[u8]) -> Option<u64>
    ensures value { result ≡ ticks text.now }
    ensures within { IfSome result (λ value. value ≤ TICKS_LIMIT) }
{
    match bounded(text, 4_611_686_018_427_387_904) {
        None => None,
        Some(value) => Some(value as u64),
    }
}

fn first_slash(text: &[u8]) -> Option<usize>
    ensures place { result ≡ position is_slash text.now }
    ensures within { IfSome result (λ place. place < length text.now) }
{
    text.iter().position(|byte| *byte == b'/')
}

/// The bytes before a place.
pub(crate) fn front(text: &[u8], place: usize) -> &[u8]
    requires { place ≤ length text.now }
    ensures { result.now ≡ take place text.now }
{
    &text[..place]
}

/// The bytes from a place on.
pub(crate) fn behind(text: &[u8], place: usize) -> &[u8]
    requires { place ≤ length text.now }
    ensures { result.now ≡ drop place text.now }
{
    &text[place..]
}

/// The interval and the timeout that a value is.
pub fn interval_and_timeout(text: &[u8]) -> Option<IntervalAndTimeout>
    ensures { result ≡ interval_and_timeout text.now }
{
    let place = first_slash(text)?;
    let interval = number_of_ticks(front(text, place))?;
    let timeout = number_of_ticks(behind(text, place + 1))?;
    Some(IntervalAndTimeout {
        interval: Tick(interval),
        timeout: Tick(timeout),
    })
}
