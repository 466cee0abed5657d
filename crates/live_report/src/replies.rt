ghost use Rattle.std.specs.Prelude.{◌≡◌, ◌↔◌, IsTrue, option_map};
ghost use Rattle.live_report.specs.Lines.{differs, is_same};

use client_retry::End;
use ft_base::Outcome;

/// Whether two outcomes are equal.
pub fn is_same(one: &Outcome, other: &Outcome) -> bool
    ensures value { result ≡ is_same one.now other.now }
    ensures equal { IsTrue result ↔ (one.now ≡ other.now) }
{
    match (one, other) {
        (Outcome::Value(one), Outcome::Value(other)) => one.bytes() == other.bytes(),
        (Outcome::User(one), Outcome::User(other)) => one.bytes() == other.bytes(),
        _ => false,
    }
}

/// Whether a call ended by an outcome that isn't the group's. `replied` is the reply that the group's journal holds for
/// the call, if it holds one.
pub fn differs(end: &End, replied: Option<&Outcome>) -> bool
    ensures { result ≡ differs end.now (option_map (λ reply. reply.now) replied.entry) }
{
    match (end, replied) {
        (End::Outcome(_), None) => true,
        (End::Outcome(told), Some(held)) => !is_same(held, told),
        _ => false,
    }
}
