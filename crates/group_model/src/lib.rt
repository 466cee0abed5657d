//! The plain group: what an object group is, apart from all code. It is one journal for all its hosts
//! and a few numbers for each, and `specs/` say what every event makes of it; states and replies are
//! computed from the journal. The code here is the types of events and answers, and the laws.
#![tactic(auto)]

mod asking;
mod changes;
mod events;
mod laws;
mod refusals;
mod reopened;
mod spares;

pub use asking::Asked;
pub use changes::{Change, ManageFault};
pub use events::{Event, GroupAnswer, Inner, Out, OutList};
pub use laws::{
    agreement_lasts, answers_are_given, calls_are_counted, deposed_append_nothing,
    entries_are_replied, few_are_sent, groups_grow, groups_stay_sound, journals_stay,
    knowledge_never_falls, leaders_append, lean_goes_on, only_views_are_known,
    refusals_change_nothing, steps_go_on, stops_are_told, takers_may_take, what_is_sent_agrees,
    writes_are_shown,
};
pub use refusals::Refusal;
pub use reopened::reopened_groups_are_sound;
pub use spares::spares_join;
