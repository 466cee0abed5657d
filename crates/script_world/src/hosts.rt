/// A host of a script. The clock of one that is down stands still.
#[derive(Clone, Copy, Debug, PartialEq, Eq)]
pub struct HostState {
    pub up: bool,
    pub clock: u64,
}
