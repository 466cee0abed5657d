//! What a group's core tells. The functions do nothing: their contracts are facts.
ghost use Rattle.group_core.specs.Stepping.{ActsAreSteps};
ghost use Rattle.group_core.specs.Telling.{CoresTell, LogFaultsAreCounted, ShortCallsAreAsForetold, TurnsAreAsForetold, WantOfMemoryIsTold};

use group_stands::{logs_reply, logs_tell, views_are_shown};

/// What a core that stands for a plain group tells of it: of its style, its kind, its journal, its views, the
/// reply that it holds for a key, and each of its hosts.
pub fn cores_tell()
    ensures { CoresTell }
{
    logs_tell();
    logs_reply();
    views_are_shown();
}

/// An event at a core is a step of its group, to one for which the core stands then.
pub fn acts_are_steps()
    ensures { ActsAreSteps }
{}

/// Where an answer shows a failed write, the keeper counts one fault more; else its count doesn't fall. It may
/// rise at a checkpoint, where only what is tidied behind it fails.
pub fn log_faults_are_counted()
    ensures { LogFaultsAreCounted }
{}

/// Where memory was wanted, something was written exactly where a request joined the journal unrun: its entry.
pub fn want_of_memory_is_told()
    ensures { WantOfMemoryIsTold }
{
    logs_tell();
}

/// Over a keeper that tells whether its next write is to fail, and that no later one is, an event has the turn in which
/// the log's write fails so; and a failure comes once.
pub fn turns_are_as_foretold()
    ensures turn { TurnsAreAsForetold }
    ensures short { ShortCallsAreAsForetold }
{
    logs_tell();
}
