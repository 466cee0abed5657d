ghost use Rattle.std.specs.Prelude.{◌≡◌, ◌+◌, nat_le, Some, None};
ghost use Rattle.fault_monitor.specs.Watching.{Watched, asked, answered, hears, is_due, is_overdue, numbered};
ghost use Rattle.fault_monitor.specs.Keeping.{Sums, earliest, is_past};

use ft_base::Tick;

/// What is kept of a watched member.
#[derive(Clone, Copy)]
pub(crate) struct Member {
    pub(crate) interval: Tick,
    pub(crate) timeout: Tick,
    /// The last ask.
    pub(crate) last: Option<Tick>,
    /// The earliest ask that no answer followed.
    pub(crate) unanswered: Option<Tick>,
}

/// Whether a tick is at least so many ticks ago.
fn is_ago(tick: Tick, ticks: Tick, now: Tick) -> bool
    ensures { result ≡ nat_le (tick.0 + ticks.0) now.0 }
{
    tick.0 <= now.0 && ticks.0 <= now.0 - tick.0
}

/// The earlier one of a tick and of another that may be there.
fn earlier(other: Option<Tick>, tick: Tick) -> Tick
    ensures { result ≡ earliest other tick }
{
    match other {
        None => tick,
        Some(other) => { if other.0 <= tick.0 { other } else { tick } }
    }
}

impl Member {
    /// A member of which nothing was heard.
    pub(crate) fn new(interval: Tick, timeout: Tick) -> Member
        ensures { Sums (numbered None interval.0 timeout.0) result }
    {
        Member {
            interval,
            timeout,
            last: None,
            unanswered: None,
        }
    }

    /// The same with other numbers.
    pub(crate) fn numbered(self, interval: Tick, timeout: Tick) -> Member
        ensures { (w : Watched) → Sums w self → Sums (numbered (Some w) interval.0 timeout.0) result }
    {
        Member {
            interval,
            timeout,
            ..self
        }
    }

    /// The same, asked once more.
    pub(crate) fn asked(self, now: Tick) -> Member
        ensures { (w : Watched) → Sums w self → Sums (hears (asked now.0) w) result }
    {
        Member {
            last: Some(now),
            unanswered: Some(earlier(self.unanswered, now)),
            ..self
        }
    }

    /// The same, after an answer.
    pub(crate) fn answered(self) -> Member
        ensures { (w : Watched) → Sums w self → Sums (hears answered w) result }
    {
        Member {
            unanswered: None,
            ..self
        }
    }

    /// Whether it is to be asked.
    pub(crate) fn is_due(&self, now: Tick) -> bool
        ensures { (w : Watched) → Sums w self.now → result ≡ is_due w now.0 }
    {
        match self.last {
            None => true,
            Some(last) => is_ago(last, self.interval, now),
        }
    }

    /// Whether it hasn't answered in time.
    pub(crate) fn is_overdue(&self, now: Tick) -> bool
        ensures { (w : Watched) → Sums w self.now → result ≡ is_overdue w now.0 }
    {
        match self.unanswered {
            None => false,
            Some(ask) => is_ago(ask, self.timeout, now),
        }
    }
}
