use thiserror::Error;

/// Why a list of service contexts tells no version and key.
#[derive(Clone, Copy, Debug, PartialEq, Eq, Error)]
pub enum ContextFault {
    /// The context with this id stands twice.
    #[error("context {0} twice")]
    Twice(u32),
    /// The context with this id can't be read. The place is that of the value at fault, behind its
    /// padding, counted from the first byte of the context's content.
    #[error("context {id} bad at {place}")]
    Bad { id: u32, place: u32 },
    #[error("no memory")]
    NoMemory,
}
