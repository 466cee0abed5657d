//! What a log and a replica that stand for a group tell of it. The functions do nothing: their
//! contracts are facts.
ghost use Rattle.group_stands.specs.Replying.{LogsReply};
ghost use Rattle.group_stands.specs.Telling.{LogsTell, LogsLend, LogsHaveEntries, LogsAdmit, RepeatsAreAnswered, CaughtUpHasRun, CaughtUpRepeats, StatesAreStates, RepliesAreGiven};

use ft_base::replies_are_given;
use message_log::logs_say_what_journals_say;

/// A log's length, newest view and entries are its group's.
pub fn logs_tell()
    ensures tell { LogsTell }
    ensures lend { LogsLend }
    ensures have { LogsHaveEntries }
{
    logs_say_what_journals_say();
}

/// A log admits what its group's whole journal admits.
pub fn logs_admit()
    ensures { LogsAdmit }
{
    logs_say_what_journals_say();
}

/// A log has the reply that a repeat asks for, once the entry was run; where some host has caught up,
/// all were.
pub fn repeats_are_answered()
    ensures answered { RepeatsAreAnswered }
    ensures run { CaughtUpHasRun }
    ensures caught_up { CaughtUpRepeats }
{}

/// A log tells the reply that its group holds for a key.
pub fn logs_reply()
    ensures { LogsReply }
{
    logs_say_what_journals_say();
}

/// The states and replies of a group are those of its kind of servant.
pub fn states_are_states()
    ensures states { StatesAreStates }
    ensures given { RepliesAreGiven }
{
    replies_are_given();
}
