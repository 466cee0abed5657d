ghost use Rattle.std.specs.Prelude.{◌≡◌, ℕ};
ghost use Rattle.ft_base.specs.Admissions.{says_same, expires_at};
ghost use Rattle.ft_base.specs.Journal.{is_unexpired};
ghost use Rattle.reply_table.specs.Entries.{replied};

use ft_base::{Key, Outcome, Request, Tick, Version};

/// A keyed request of the journal, and its reply once it has run.
#[derive(Drop)]
pub struct Retained {
    /// Its place in the journal.
    pub position: u32,
    /// The version that its writer knew.
    pub version: Version,
    /// When it was accepted.
    pub at: Tick,
    pub request: Request,
    pub reply: Option<Outcome>,
}

/// What a request is to the retained entries.
#[derive(Clone, Copy, Debug, PartialEq, Eq)]
pub enum Found {
    /// No entry holds its retention id.
    Fresh,
    /// The entry at this position holds its retention id, and is the same request.
    Same(u32),
    /// The entry at this position holds its retention id, and is another request.
    Other(u32),
}

fn expires_at(expiration: Tick, key: &Option<Key>) -> bool
    ensures { result ≡ expires_at expiration.0 key.now }
{
    match key {
        None => false,
        Some(key) => key.expiration.0 == expiration.0,
    }
}

/// Whether a request with this key says the same as another.
pub(crate) fn says_same(request: &Request, key: &Key, other: &Request) -> bool
    ensures { result ≡ says_same request.now key.now other.now }
{
    request.op.is(&other.op)
        && request.args.is(&other.args)
        && expires_at(key.expiration, &other.key)
}

/// Whether an expiration is still to come.
pub(crate) fn is_unexpired(time: Tick, key: &Option<Key>) -> bool
    ensures { result ≡ is_unexpired time.0 key.now }
{
    match key {
        None => false,
        Some(key) => time.0 < key.expiration.0,
    }
}

/// Gives an entry its reply, where it has none.
pub(crate) fn answer_entry(entry: &mut Retained, outcome: Outcome)
    ensures { entry.new ≡ replied outcome entry.old }
{
    if entry.reply.is_none() {
        entry.reply = Some(outcome);
    }
}
