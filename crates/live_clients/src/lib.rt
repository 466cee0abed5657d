//! The clients of a live run, each a job in a thread of its own: they are started in order, and what each gives is
//! what its calls owe of the name, the reference and the caller that it was given.
#![tactic(auto)]

mod jobs;
mod keys;
mod laws;
mod runs;
mod settings;

pub use jobs::{ClientEnd, ClientJob};
pub use keys::live_key;
pub use laws::faults_are_counted;
pub use runs::{RunningClients, join_clients, start_clients};
pub use settings::ClientSetting;
