use ft_base::{Decision, Version};
use sys_faults::Answer;

/// A request that goes no further than the decision table, and the version that its host then knows.
#[derive(Drop)]
pub struct Refusal {
    pub decision: Decision,
    pub answer: Answer,
    pub known: Version,
}
