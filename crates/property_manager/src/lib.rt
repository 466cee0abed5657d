//! How a group is to be made and kept, said by ten properties. (Chapter 23, PropertyManager.)
//!
//! A property's value is a text. It is set at four levels, each over the one before: the defaults,
//! those of a type, those of a group's creation, and those set while the group runs. Where no level
//! sets it, the value that is built in stands. A group keeps what it took at its creation.
//!
//! The interval of checkpoints at each level: for all groups, for accounts, at a creation, and while a group runs.
//!
//! ```
//! set default org.omg.ft.CheckpointInterval 50
//! set type account org.omg.ft.CheckpointInterval 60
//! create early account org.omg.ft.CheckpointInterval=70
//!     group early 1
//!     view early 1 members - primary -
//! get group early org.omg.ft.CheckpointInterval
//!     property org.omg.ft.CheckpointInterval 70
//! set group early org.omg.ft.CheckpointInterval 080
//! get group early org.omg.ft.CheckpointInterval
//!     property org.omg.ft.CheckpointInterval 080
//! ```
#![tactic(auto)]

mod effective;
mod faults;
mod host_lists;
mod judging;
mod levels;
mod manager;
mod names;
mod numbers;
mod settings;
mod standings;
mod styles;
mod tables;

pub use effective::effective_in;
pub use faults::PropertyFault;
pub use host_lists::{Hosts, factories};
pub use judging::judge_criteria;
pub use levels::{Properties, push_copies};
pub use manager::PropertyManager;
pub use names::PropertyName;
pub use numbers::{
    IntervalAndTimeout, REPLICAS_LIMIT, TICKS_LIMIT, interval_and_timeout, number_of_replicas,
    number_of_ticks,
};
pub use settings::{Property, PropertyValue, has_name};
pub use standings::{Standing, standing_of};
pub use styles::{
    ConsistencyStyle, FaultMonitoringGranularity, FaultMonitoringStyle, MembershipStyle,
    ReplicationStyle,
};
