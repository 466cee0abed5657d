//! The laws of a log that stands for a journal, and of what its records say of it. The functions do
//! nothing: their contracts are facts.
ghost use Rattle.message_log.specs.Laws.{AdmitsAsJournal, LendsJournal, StandsFresh, StandsWithEntry, StandsCut, StandsAnswered};
ghost use Rattle.message_log.specs.Written.{RecordsAreRead, IsOpenedAgain, IsNeverBad, KeepsReplies};

use crate::logs::Log;
use cdr_codec::values_are_read_back;
use ft_base::requests_join;
use ft_outside::Keeper;

/// What a log says of its journal, though it has cut and dropped parts of it.
pub fn logs_say_what_journals_say()
    ensures admits { AdmitsAsJournal }
    ensures lends { LendsJournal }
{}

/// How the journal for which a log stands goes on with its calls.
pub fn logs_stand_for_journals()
    ensures fresh { StandsFresh }
    ensures entry { StandsWithEntry }
    ensures cut { StandsCut }
    ensures answered { StandsAnswered }
{
    requests_join();
}

/// What is written of a log is read again: each record whose fields are in their ranges, and that is
/// shorter than 2^32 - 8 bytes.
pub fn records_are_read_again()
    ensures { RecordsAreRead }
{
    values_are_read_back();
}

/// A log that is stopped after any of its calls and opened again has the same newest view, the same
/// entries, mark, time and state, and retains the same requests. Of their replies it has those that
/// the last checkpoint wrote; what has run since has none until it is run again. So it is with every log.
pub fn logs_are_opened_again<K: Keeper>(log: &Log<K>)
    ensures resumed { IsOpenedAgain log.now }
    ensures not_bad { IsNeverBad log.now }
    ensures replies { KeepsReplies log.now }
{
    log.is_written_down();
}
