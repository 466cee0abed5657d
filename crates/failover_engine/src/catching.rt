ghost use Rattle.std.specs.Prelude.{◌≡◌, ◌+◌, ◌-◌, ◌<◌, ◌≤◌, ◌⊎◌, ◌&&◌, ℕ, length, true, nat_le, unwrap_or, IfOk, OnOk, OnErr};
ghost use Rattle.group_model.specs.Plain.{Common, Host, Place, loaded_at, start_of, with_ran};
ghost use Rattle.group_model.specs.Serving.{calls_behind};
ghost use Rattle.group_stands.specs.Stands.{LogStands, ReplicaStands, OpeningStands};
ghost use Rattle.failover_engine.specs.Catching.{IsAt, HasRunTo, HasStopped};

use ft_base::{Bytes, NoMemory, Servant, StateFault, Steps};
use ft_outside::Keeper;
use ft_replica::Replica;
use group_stands::{entries_run, logs_tell, replicas_go_on};
use message_log::Log;
use std::alloc::Global;
use std::sync::ledger::Ledger;

/// The checkpoint's state, or the opening state where there is none.
fn first_state<S: Servant, K: Keeper>(
    alloc: Global,
    log: &Log<K>,
    opening: &S,
) -> Result<Bytes, NoMemory>
    ensures { IfOk result (λ bytes. bytes ≡ unwrap_or log.now.state (S.state opening.now)) }
{
    match log.state() {
        Some(state) => state.copy(alloc),
        None => opening.get_state(alloc),
    }
}

/// Loads the checkpoint, or the opening state where there is none.
fn load_first<S: Servant + Drop, K: Keeper>(
    alloc: Global,
    log: &Log<K>,
    replica: &mut Replica<S>,
    opening: &S,
) -> Result<(), NoMemory>
    requires { (c : Common) × (place : Place) × LogStands S.machine c log.now × ReplicaStands S.machine c replica.old place × OpeningStands c (S.kind opening.now) (S.state opening.now) }
    ensures loaded { OnOk result ((c : Common) (place : Place) → LogStands S.machine c log.now → ReplicaStands S.machine c replica.old place → OpeningStands c (S.kind opening.now) (S.state opening.now) →
        ReplicaStands S.machine c replica.new (loaded_at c.mark)) }
    ensures left { OnErr result (replica.new ≡ replica.old) }
{
    replicas_go_on();
    let state = first_state(alloc, log, opening)?;
    match replica.load(alloc, log.mark(), &state) {
        Ok(()) => Ok(()),
        Err(StateFault::NoMemory) => Err(NoMemory),
        Err(StateFault::InvalidState) => unreachable!(),
    }
}

/// Whether a replica goes on from where it is.
fn goes_on<S: Servant + Drop, K: Keeper>(log: &Log<K>, replica: &Replica<S>) -> bool
    ensures { result ≡ (replica.now.loaded && nat_le log.now.mark replica.now.position) }
{
    replica.is_loaded() && log.mark() <= replica.position()
}

/// Goes on from where the replica is, or loads the checkpoint.
fn begin<S: Servant + Drop, K: Keeper>(
    alloc: Global,
    log: &Log<K>,
    replica: &mut Replica<S>,
    opening: &S,
) -> Result<(), NoMemory>
    requires { (c : Common) × (place : Place) × LogStands S.machine c log.now × ReplicaStands S.machine c replica.old place × OpeningStands c (S.kind opening.now) (S.state opening.now) }
    ensures begun { OnOk result ((c : Common) (place : Place) → LogStands S.machine c log.now → ReplicaStands S.machine c replica.old place → OpeningStands c (S.kind opening.now) (S.state opening.now) →
        ReplicaStands S.machine c replica.new (start_of c place) × ((start_of c place).loaded ≡ true) × (c.mark ≤ (start_of c place).position)) }
    ensures left { OnErr result (replica.new ≡ replica.old) }
{
    if goes_on(log, replica) {
        return Ok(());
    }
    load_first(alloc, log, replica, opening)
}

/// Runs the entry at the replica's position.
fn run_next<S: Servant + Drop, K: Keeper, L: Ledger>(
    alloc: Global,
    log: &mut Log<K>,
    replica: &mut Replica<S>,
    steps: &mut Steps<L>,
) -> Result<(), NoMemory>
    requires { (c : Common) × (place : Place) × LogStands S.machine c log.old × ReplicaStands S.machine c replica.old place × (place.loaded ≡ true) × (c.mark ≤ place.position) × (place.position < length c.journal) }
    ensures ran { OnOk result ((c : Common) (place : Place) → LogStands S.machine c log.old → ReplicaStands S.machine c replica.old place → place.loaded ≡ true → c.mark ≤ place.position → place.position < length c.journal →
        LogStands S.machine (with_ran (place.position + 1) c) log.new × ReplicaStands S.machine (with_ran (place.position + 1) c) replica.new (record place { position = place.position + 1 })) }
    ensures left { OnErr result ((log.new ≡ log.old) × (replica.new ≡ replica.old)) }
    ensures rest { log.new ≡ record log.old { table = log.new.table } }
    ensures counted { steps.new ≡ steps.old + 1 }
{
    logs_tell();
    entries_run();
    let position = replica.position();
    let Some(request) = log.entry(position) else {
        unreachable!()
    };
    let outcome = replica.apply(alloc, request, steps)?;
    log.set_reply(position, outcome);
    Ok(())
}

/// Runs the entries from the replica's position on.
fn run_rest<S: Servant + Drop, K: Keeper, L: Ledger>(
    alloc: Global,
    log: &mut Log<K>,
    replica: &mut Replica<S>,
    steps: &mut Steps<L>,
) -> Result<u32, NoMemory>
    requires { (c : Common) × (place : Place) × LogStands S.machine c log.old × ReplicaStands S.machine c replica.old place × (place.loaded ≡ true) × (c.mark ≤ place.position) }
    ensures ran { OnOk result ((c : Common) (place : Place) → LogStands S.machine c log.old → ReplicaStands S.machine c replica.old place → place.loaded ≡ true → c.mark ≤ place.position →
        IsAt S.machine c place log.new replica.new (length c.journal)) }
    ensures number { IfOk result (λ n. (c : Common) (place : Place) → LogStands S.machine c log.old → ReplicaStands S.machine c replica.old place →
        n ≡ length c.journal - place.position) }
    ensures counted { IfOk result (λ n. steps.new ≡ steps.old + n) }
    ensures stopped { OnErr result ((c : Common) (place : Place) → LogStands S.machine c log.old → ReplicaStands S.machine c replica.old place → place.loaded ≡ true → c.mark ≤ place.position →
        (n : ℕ) × IsAt S.machine c place log.new replica.new n × (n < length c.journal) × (steps.new ≡ steps.old + (n - place.position) + 1)) }
    ensures rest { log.new ≡ record log.old { table = log.new.table } }
{
    logs_tell();
    let first = replica.position();
    let end = log.length();
    for at in first..end {
        if let Err(NoMemory) = run_next(alloc, log, replica, steps) {
            return Err(NoMemory);
        }
    }
    Ok(end - first)
}

/// Brings a host's replica to the end of its group's journal, and answers how many entries it ran.
///
/// A replica that is loaded at the log's mark or behind it goes on from where it is; any other loads
/// the log's checkpoint, or the opening state where there is none. The reply of each entry that it
/// runs is set in the log. On want of memory the entries that it ran stay run.
pub fn catch_up<S: Servant + Drop, K: Keeper, L: Ledger>(
    alloc: Global,
    log: &mut Log<K>,
    replica: &mut Replica<S>,
    opening: &S,
    steps: &mut Steps<L>,
) -> Result<u32, NoMemory>
    requires { (c : Common) × (h : Host) × LogStands S.machine c log.old × ReplicaStands S.machine c replica.old h.place × OpeningStands c (S.kind opening.now) (S.state opening.now) }
    ensures caught_up { OnOk result ((c : Common) (h : Host) → LogStands S.machine c log.old → ReplicaStands S.machine c replica.old h.place → OpeningStands c (S.kind opening.now) (S.state opening.now) →
        HasRunTo S.machine c h log.new replica.new (length c.journal)) }
    ensures number { IfOk result (λ n. (c : Common) (h : Host) → LogStands S.machine c log.old → ReplicaStands S.machine c replica.old h.place → OpeningStands c (S.kind opening.now) (S.state opening.now) →
        n ≡ calls_behind c h) }
    ensures counted { IfOk result (λ n. steps.new ≡ steps.old + n) }
    ensures stopped { OnErr result ((c : Common) (h : Host) → LogStands S.machine c log.old → ReplicaStands S.machine c replica.old h.place → OpeningStands c (S.kind opening.now) (S.state opening.now) →
        ((log.new ≡ log.old) × (replica.new ≡ replica.old) × (steps.new ≡ steps.old)) ⊎ HasStopped S.machine c h log.new replica.new steps.old steps.new) }
    ensures rest { log.new ≡ record log.old { table = log.new.table } }
{
    if let Err(NoMemory) = begin(alloc, log, replica, opening) {
        return Err(NoMemory);
    }
    match run_rest(alloc, log, replica, steps) {
        Ok(count) => Ok(count),
        Err(NoMemory) => Err(NoMemory),
    }
}
