use ft_base::{Bytes, Steps};
use std::alloc::Global;
use std::sync::ledger::Ledger;

/// What acting the text of a line gave: its output, a refusal, or want of memory.
#[derive(Debug, Drop)]
pub enum LineResult<F> {
    Goes(Bytes),
    Stops(F),
    NoMemory,
}

/// What acts the lines of a script. `rules` has what the text of a line does, as a function.
pub trait Actor: Sized {
    ghost use Rattle.std.specs.Prelude.{◌≡◌, ℕ, ◌+◌, ◌≤◌, List, take};
    ghost use Rattle.script_pieces.specs.Runs.{Rules, script_limit};
    ghost use Rattle.script_pieces.specs.Feeds.{IfGoes, IsActed};

    type Fault: Drop;

    ghost rules: { Rules Self Self.Fault };

    ghost may_act: { Self → ℕ → Type 0 };

    /// Acts the text of a line, which stands here without its LF. `may_act` says what a world keeps
    /// that may act the line of a number, and a script has no more lines than bytes.
    fn act<L: Ledger>(
        &mut self,
        alloc: Global,
        text: &[u8],
        steps: &mut Steps<L>,
    ) -> LineResult<Self::Fault>
        requires { (number : ℕ) × (number ≤ script_limit + 1) × may_act self.old number }
        ensures acted { IsActed (rules.effect self.old text.now) self.new steps.old steps.new result }
        ensures next { (number : ℕ) → may_act self.old number → IfGoes result (may_act self.new (number + 1)) };

    /// Why a line past the limit of a script is refused.
    fn past(&self) -> Self::Fault
        ensures { result ≡ rules.past };

    ghost alike: { (world : Self) (text : List ℕ) → rules.effect world text ≡ rules.effect world (take 4097 text) };
}
