use group_model::Event;

/// What happens to a group of a script.
#[derive(Drop)]
pub enum Happening {
    /// This event comes to it.
    Event(Event),
    /// Its log's next write is to fail.
    FailNext,
}
