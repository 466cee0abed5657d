use active_sequencer::Holdback;
use ft_base::{Servant, Style};
use ft_replica::Replica;

/// With what a group was made: how its members share its work, and its servant in the opening state.
#[derive(Drop)]
pub struct Founding<S: Servant> {
    pub style: Style,
    pub opening: S,
}

/// How far a host has come: its replica of the group's servant, and the orders that it holds back.
#[derive(Drop)]
pub(crate) struct Progress<S: Servant> {
    pub(crate) replica: Replica<S>,
    pub(crate) holdback: Holdback,
}
