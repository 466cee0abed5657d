//! What writing calls leave of a log's records, also where a keeper says that they failed. The function does
//! nothing: its contract is a fact.
ghost use Rattle.message_log.specs.Recording.{WrittenLogsAreOpenedAgain, EntriesAreWrittenDown, ViewsAreWrittenDown, CheckpointsAreWrittenDown};

use crate::laws::records_are_read_again;

/// A log that is written down is opened again as it was, and it stays written down with one record more: a
/// request's, the next view's, or a checkpoint's, in each of the checkpoint's steps. A keeper that told a failed
/// write may have that record all the same.
pub fn writes_are_on_record()
    ensures opened { WrittenLogsAreOpenedAgain }
    ensures entry { EntriesAreWrittenDown }
    ensures view { ViewsAreWrittenDown }
    ensures checkpoint { CheckpointsAreWrittenDown }
{
    records_are_read_again();
}
