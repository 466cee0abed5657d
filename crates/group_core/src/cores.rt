ghost use Rattle.std.specs.Prelude.{◌≡◌, ◌<◌, [], Some, Err, false, not, length, slice_get, option_copied, option_map, IfOk, IfErr, OnOk, OnErr};
ghost use Rattle.std.specs.List.{AllByRecursion};
ghost use Rattle.ft_base.specs.Members.{AreDifferent};
ghost use Rattle.ft_base.specs.declared.limits.TheConstants.{HOST_LIMIT};
ghost use Rattle.ft_outside.specs.Keeping.{failing_next, plan_after, IsForetold};
ghost use Rattle.message_log.specs.Calls.{IsStarted};
ghost use Rattle.message_log.specs.Picture.{view_at};
ghost use Rattle.message_log.specs.Written.{IsWrittenDown};
ghost use Rattle.group_model.specs.Agreeing.{Agrees};
ghost use Rattle.group_model.specs.Openings.{first_view, opening_group};
ghost use Rattle.group_model.specs.Plain.{Group};
ghost use Rattle.group_hosts.specs.Hosts.{HostPicture};
ghost use Rattle.group_hosts.specs.Keeping.{WroteFor};
ghost use Rattle.group_core.specs.Acting.{IsActed};
ghost use Rattle.group_core.specs.Cores.{Stands};
ghost use Rattle.group_core.specs.Opening.{AreBlank, AreOpening, loaded_replica};
ghost use Rattle.group_core.specs.Resuming.{MayResume};

use ft_base::{
    GroupId, HOST_LIMIT, HostNo, Members, Name, NoMemory, Servant, Signature, Steps, Style,
    Version, View,
};
use ft_outside::{Keeper, MemKeeper};
use ft_replica::Replica;
use group_hosts::{Founding, GroupHost, act_at, host_of};
use group_model::{Event, GroupAnswer, groups_grow, groups_stay_sound, lean_goes_on};
use group_stands::{holdbacks_go_on, logs_go_on, replicas_go_on};
use message_log::{Log, LogFault};
use std::alloc::Global;
use std::marker::Model;
use std::sync::ledger::Ledger;

/// A group: its number and with what it was made, the first version whose view it still has, its log, and its hosts by
/// their numbers.
#[derive(Drop)]
pub struct GroupCore<S: Servant, K: Keeper> {
    group: GroupId,
    founding: Founding<S>,
    first_kept: Version,
    log: Log<K>,
    hosts: Vec<GroupHost<S>>,
}

impl<S: Servant, K: Keeper> Model for GroupCore<S, K> {
    ghost use Rattle.group_core.specs.Cores.{CorePicture};

    ghost Value = { CorePicture };

    ghost view = { λ c. record { id = c.group.0; style = c.founding.style; kind = S.kind c.founding.opening; opening = S.state c.founding.opening; first_kept = c.first_kept.0; log = c.log; hosts = c.hosts.items } };
}

/// The hosts with which a group opens.
#[tactic(auto, using(crate::proofs::Opens::none_yet, crate::proofs::Opens::one_more))]
fn opening_hosts<S: Servant + Drop>(
    alloc: Global,
    founding: &Founding<S>,
    view: &View,
) -> Result<Vec<GroupHost<S>>, NoMemory>
    ensures { IfOk result (λ hosts. AreOpening (S.kind founding.now.opening) (S.state founding.now.opening) founding.now.style view.now hosts.items HOST_LIMIT) }
{
    let mut hosts: Vec<GroupHost<S>> = Vec::new(alloc);
    for number in 0..HOST_LIMIT as u8 {
        let host = GroupHost::opening(alloc, founding, view, HostNo(number))?;
        hosts.push(host)?;
    }
    Ok(hosts)
}

/// The hosts of a group whose log was opened again.
#[tactic(auto, using(crate::proofs::Resumes::no_blanks))]
fn blank_hosts<S: Servant + Drop>(
    alloc: Global,
    founding: &Founding<S>,
) -> Result<Vec<GroupHost<S>>, NoMemory>
    ensures { IfOk result (λ hosts. AreBlank (S.kind founding.now.opening) (S.state founding.now.opening) hosts.items HOST_LIMIT) }
{
    let mut hosts: Vec<GroupHost<S>> = Vec::new(alloc);
    for _number in 0..HOST_LIMIT as u8 {
        let host = GroupHost::blank(alloc, founding)?;
        hosts.push(host)?;
    }
    Ok(hosts)
}

/// The first view of a group of this style.
fn first_view(style: Style, members: Members) -> View
    ensures { result ≡ first_view style members }
{
    let primary = match style {
        Style::Active => None,
        Style::Cold | Style::Warm => members.first(),
    };
    View {
        version: Version(1),
        members,
        primary,
    }
}

impl<S: Servant + Drop, K: Keeper> GroupCore<S, K> {
    /// A group at its opening, with its first view: all hosts are up. A refusal hands the keeper back;
    /// it comes where the view can't be written, or where there is no memory.
    ///
    /// Members differ always; a caller has to say so, as it sees them as a list.
    pub fn new(
        alloc: Global,
        group: GroupId,
        style: Style,
        opening: S,
        members: Members,
        keeper: K,
    ) -> Result<GroupCore<S, K>, (LogFault, K)>
        requires empty { K.records keeper ≡ [] }
        requires hosts { AllByRecursion (λ host. host < HOST_LIMIT) members }
        requires different { AreDifferent members }
        ensures stands { IfOk result (λ core. Stands S.machine core (opening_group group.0 style (S.kind opening) (S.state opening) members)) }
        ensures foretold { IfOk result (λ core. IsForetold (K.plan keeper) false) }
        ensures planned { IfOk result (λ core. core.log.plan ≡ plan_after (K.plan keeper)) }
        ensures written { IfOk result (λ core. IsWrittenDown core.log) }
        ensures refused { IfErr result (λ refused. IsStarted (first_view style members)
            (record { records = K.records keeper; plan = K.plan keeper; faults = K.faults keeper })
            (record { records = K.records refused.1; plan = K.plan refused.1; faults = K.faults refused.1 }) (Err refused.0)) }
    {
        logs_go_on();
        replicas_go_on();
        holdbacks_go_on();
        let _limit = members.len();
        let view = first_view(style, members);
        let founding = Founding { style, opening };
        let hosts = match opening_hosts(alloc, &founding, &view) {
            Ok(hosts) => hosts,
            Err(NoMemory) => return Err((LogFault::NoMemory, keeper)),
        };
        match Log::new(alloc, keeper, view) {
            Ok(log) => {
                log.is_written_down();
                Ok(GroupCore {
                    group,
                    founding,
                    first_kept: Version(1),
                    log,
                    hosts,
                })
            }
            Err(refused) => Err(refused),
        }
    }

    /// A group that goes on over its log, which was opened again after a stop of all hosts: they are up and know nothing.
    /// A refusal hands the log back.
    pub fn resume(
        alloc: Global,
        group: GroupId,
        style: Style,
        opening: S,
        log: Log<K>,
    ) -> Result<GroupCore<S, K>, (NoMemory, Log<K>)>
        ensures stands { IfOk result (λ core. (g : Group) → MayResume S.machine group.0 style (S.kind opening) (S.state opening) log g → Stands S.machine core g) }
        ensures first_kept { IfOk result (λ core. core.first_kept ≡ log.newest.version.0) }
        ensures log { IfOk result (λ core. core.log ≡ log) }
        ensures written { IfOk result (λ core. IsWrittenDown core.log) }
        ensures refused { IfErr result (λ refused. refused.1 ≡ log) }
    {
        replicas_go_on();
        holdbacks_go_on();
        let founding = Founding { opening, style };
        let hosts = match blank_hosts(alloc, &founding) {
            Ok(hosts) => hosts,
            Err(NoMemory) => return Err((NoMemory, log)),
        };
        log.is_written_down();
        let first_kept = log.newest().version;
        Ok(GroupCore {
            group,
            founding,
            first_kept,
            log,
            hosts,
        })
    }

    /// Acts an event that agrees with the group.
    ///
    /// Want of memory leaves nothing changed; or what the event's host knows and where it came, in a catch-up
    /// or over its orders; or the request has joined the journal and its host is blank. Only then was
    /// something written, the entry (`want_of_memory_is_told`).
    pub fn act<L: Ledger>(
        &mut self,
        alloc: Global,
        event: Event,
        steps: &mut Steps<L>,
    ) -> GroupAnswer
        requires { (g : Group) × Stands S.machine self.old g × Agrees (S.machine g.common.kind) event g }
        ensures acted { (g : Group) → Stands S.machine self.old g → Agrees (S.machine g.common.kind) event g → IsActed S.machine g event result self.new steps.old steps.new }
        ensures wrote { WroteFor event result self.old.log self.new.log }
        ensures written { IsWrittenDown self.new.log }
    {
        groups_stay_sound();
        groups_grow();
        lean_goes_on();
        replicas_go_on();
        holdbacks_go_on();
        let at = host_of(&event);
        let host = &mut self.hosts[at.0 as usize];
        let answer = act_at(alloc, &self.founding, &mut self.log, host, event, steps);
        self.log.is_written_down();
        answer
    }

    /// The group's number.
    pub fn group(&self) -> GroupId
        ensures { result.0 ≡ self.now.id }
    {
        self.group
    }

    /// What the group's servant says of an operation: its parameters and its result; none where it has no
    /// such operation.
    pub fn signature(&self, op: &Name) -> Option<Signature>
        ensures { result ≡ (S.machine self.now.kind).signature op.now }
    {
        self.founding.opening.signature(op)
    }

    /// How the group's members share its work.
    pub fn style(&self) -> Style
        ensures { result ≡ self.now.style }
    {
        self.founding.style
    }

    /// A host's replica; none where it isn't loaded.
    pub fn replica(&self, host: HostNo) -> Option<&Replica<S>>
        requires { host.0 < length self.now.hosts }
        ensures { (at : HostPicture) → slice_get self.now.hosts host.0 ≡ Some at → option_copied result ≡ loaded_replica at }
    {
        self.hosts[host.0 as usize].replica()
    }

    /// The version of the newest view of which a host heard, or 0.
    pub fn known(&self, host: HostNo) -> Version
        requires { host.0 < length self.now.hosts }
        ensures { (at : HostPicture) → slice_get self.now.hosts host.0 ≡ Some at → result.0 ≡ at.known }
    {
        self.hosts[host.0 as usize].known()
    }

    /// Whether a host is down.
    pub fn down(&self, host: HostNo) -> bool
        requires { host.0 < length self.now.hosts }
        ensures { (at : HostPicture) → slice_get self.now.hosts host.0 ≡ Some at → result ≡ not at.up }
    {
        !self.hosts[host.0 as usize].is_up()
    }

    /// The version of the first view that the group still has: 1, or where it goes on over a log that was opened again,
    /// the newest version of then.
    pub fn first_kept(&self) -> Version
        ensures { result.0 ≡ self.now.first_kept }
    {
        self.first_kept
    }

    /// The view of a version; none exactly where the group has had no such view, or has it no more.
    pub fn view(&self, version: Version) -> Option<&View>
        ensures { option_copied result ≡ view_at self.now.log version.0 }
    {
        self.log.view(version)
    }

    /// With what the group was made, and its log, once all its hosts have stopped.
    pub fn into_parts(self) -> (S, Log<K>)
        ensures kind { S.kind result.0 ≡ self.kind }
        ensures state { S.state result.0 ≡ self.opening }
        ensures log { result.1 ≡ self.log }
    {
        let GroupCore {
            group: _,
            founding,
            first_kept: _,
            log,
            hosts: _hosts,
        } = self;
        (founding.opening, log)
    }

    /// The group's log.
    pub fn log(&self) -> &Log<K>
        ensures { result.now ≡ self.now.log }
    {
        &self.log
    }
}

impl<S: Servant + Drop> GroupCore<S, MemKeeper> {
    /// Makes the log's next write fail. The core stands for what it stood for.
    pub fn fail_next(&mut self) -> Result<(), NoMemory>
        ensures stands { (g : Group) → Stands S.machine self.old g → Stands S.machine self.new g }
        ensures planned { OnOk result (self.new ≡ record self.old { log = record self.old.log { plan = option_map failing_next self.old.log.plan } }) }
        ensures left { OnErr result (self.new ≡ self.old) }
    {
        logs_go_on();
        self.log.fail_next()
    }
}
