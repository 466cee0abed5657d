ghost use Rattle.std.specs.Prelude.{◌≡◌, ℕ, ◌≤◌, length, drop};
ghost use Rattle.ft_outside.specs.Outside.{IsWrittenWhole};

use crate::sinks::{Put, Sink};

/// Whether a text was written whole.
#[derive(Clone, Copy, Debug, PartialEq, Eq)]
pub enum WholeWrite {
    All,
    Failed,
}

/// What stands behind the first bytes of a text, so many.
pub fn behind(text: &[u8], done: usize) -> &[u8]
    requires { done ≤ length text.now }
    ensures { result.now ≡ drop done text.now }
{
    &text[done..]
}

/// Writes a whole text, in as many pieces as the sink asks for, and stops at the first fault. An
/// empty text is written with no call.
pub fn write_all<B: Sink>(sink: &mut B, text: &[u8]) -> WholeWrite
    ensures { IsWrittenWhole (B.holds sink.old) (B.holds sink.new) (B.count sink.old) (B.count sink.new) text.now result }
{
    let mut done = 0;
    while done < text.len() {
        match sink.write(behind(text, done)) {
            Put::Took(count) => done += count,
            Put::Failed => return WholeWrite::Failed,
        }
    }
    WholeWrite::All
}
