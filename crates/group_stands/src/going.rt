//! How a log and replicas go on standing for a group. The functions do nothing: their contracts are
//! facts.
ghost use Rattle.group_stands.specs.Going.{FreshLogsStand, LogsGoOnBeside, RequestsJoin, CheckpointsStand, EntriesRun, ReplicasGoOn, ReplicasGoOnJoined, ReplicasGoOnRan, BlanksStand, OpenedReplicasStand, CheckpointsLoad, CheckpointsAreStates, ReplicasRebase};

use ft_base::{replies_are_given, requests_join};
use message_log::{logs_say_what_journals_say, logs_stand_for_journals};

/// How a log begins and goes on: beside its keeper's work, where a request joins, and where a checkpoint is
/// written.
pub fn logs_go_on()
    ensures fresh { FreshLogsStand }
    ensures beside { LogsGoOnBeside }
    ensures joined { RequestsJoin }
    ensures checkpointed { CheckpointsStand }
{
    requests_join();
    logs_stand_for_journals();
}

/// How both go on where the entry at a replica's position is run.
pub fn entries_run()
    ensures { EntriesRun }
{
    logs_say_what_journals_say();
    logs_stand_for_journals();
}

/// How a replica begins and goes on: while others work, blank, loaded from a checkpoint, and at a new
/// base.
pub fn replicas_go_on()
    ensures stays { ReplicasGoOn }
    ensures joined { ReplicasGoOnJoined }
    ensures ran { ReplicasGoOnRan }
    ensures blank { BlanksStand }
    ensures opened { OpenedReplicasStand }
    ensures loaded { CheckpointsLoad }
    ensures state { CheckpointsAreStates }
    ensures rebased { ReplicasRebase }
{
    replies_are_given();
}
