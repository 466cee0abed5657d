ghost use Rattle.std.specs.Prelude.{◌≡◌, ◌+◌, ◌<◌, ◌^◌, length};

use crate::orders::Order;
use ft_base::Bytes;
use thiserror::Error;

/// The body of a message, not yet read.
#[derive(Drop)]
pub struct Raw {
    pub order: Order,
    /// The body's place in its message, modulo 8.
    pub align: u8,
    pub bytes: Bytes,
}

/// Why a body isn't an operation's parameters.
#[derive(Clone, Copy, Debug, PartialEq, Eq, Error)]
pub enum ArgsFault {
    /// The place at which reading stopped, counted from the body's first byte: of the value that is
    /// at fault, behind its padding, or of the first byte that is left over.
    #[error("no parameter at {0}")]
    Bad(u32),
    #[error("no memory")]
    NoMemory,
}
