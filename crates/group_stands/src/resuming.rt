//! Logs that are opened again. The function does nothing: its contract is a fact.
ghost use Rattle.group_stands.specs.Reopening.{LogsAreReopened};

use message_log::writes_are_on_record;

/// A log that is opened again from the records of one that stands for a group stands for that group after a stop of all
/// its hosts: what has run since the checkpoint is to be run again, and the newest view is there.
pub fn logs_are_reopened()
    ensures { LogsAreReopened }
{
    writes_are_on_record();
}
