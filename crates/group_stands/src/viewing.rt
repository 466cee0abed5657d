//! The views of a log that stands for a group, and its next view. The functions do nothing: their
//! contracts are facts.
ghost use Rattle.group_stands.specs.Viewing.{LogsShowViews, LogsShowNoOthers, NextViewsAreLogged, ViewsJoin, ReplicasGoOnViewed};

use group_model::spares_join;

/// A log has exactly the views that its group still has, by their versions.
pub fn views_are_shown()
    ensures shown { LogsShowViews }
    ensures others { LogsShowNoOthers }
{}

/// A log can write the next view; it and a replica go on standing where it was written.
pub fn views_join()
    ensures logged { NextViewsAreLogged }
    ensures log { ViewsJoin }
    ensures replica { ReplicasGoOnViewed }
{
    spares_join();
}
