use ft_base::{NoMemory, Outcome};
use std::alloc::Global;

/// What holds a group's replies to the calls of a live run's clients.
pub trait Replies {
    ghost use Rattle.std.specs.Prelude.{◌≡◌, IfOk};
    ghost use Rattle.live_lines.specs.Lines.{Replied};

    // It holds these replies.
    ghost holds: { Self → Replied → Type 0 };

    /// The reply to a client's call, by their numbers; none where the group has none.
    fn reply(&self, alloc: Global, client: u64, call: u64) -> Result<Option<Outcome>, NoMemory>
        requires { (replied : Replied) × holds self.now replied }
        ensures { (replied : Replied) → holds self.now replied → IfOk result (λ reply. reply ≡ replied client call) };
}
