//! Groups whose logs were opened again. The function does nothing: its contract is a fact.
ghost use Rattle.group_model.specs.Reopening.{ReopenedGroupsAreSound};

/// Where all hosts of a group stop, and its log is opened again, it is sound: no host knows or has run anything,
/// and the newest view is there.
pub fn reopened_groups_are_sound()
    ensures { ReopenedGroupsAreSound }
{}
