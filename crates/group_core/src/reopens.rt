//! Cores whose logs are opened again. The function does nothing: its contract is facts.
ghost use Rattle.group_core.specs.Resuming.{CoresMayGoOn, EntriesMayBeThere, ViewsMayBeThere, CheckpointsMayBeThere};

use group_model::reopened_groups_are_sound;
use group_stands::{logs_are_reopened, logs_go_on, logs_tell, views_join};
use message_log::writes_are_on_record;

/// Each log that is opened from the records of a core's keeper stands for the core's group after a stop of all its
/// hosts: they are up again and blank, and what has run since the checkpoint is to be run again. So
/// `GroupCore::resume` goes on over it. Where a write failed, its record may be there all the same; then it is so for
/// the group that has the entry, the view or the checkpoint.
pub fn cores_may_go_on()
    ensures written { CoresMayGoOn }
    ensures entry { EntriesMayBeThere }
    ensures view { ViewsMayBeThere }
    ensures checkpoint { CheckpointsMayBeThere }
{
    reopened_groups_are_sound();
    logs_are_reopened();
    logs_go_on();
    logs_tell();
    views_join();
    writes_are_on_record();
}
