//! The account that is run, and its monitor.
ghost use Rattle.std.specs.Prelude.{◌≡◌, ◌<◌, ◌≤◌, [], Some, length, IfOk};
ghost use Rattle.std.specs.List.{AllByRecursion};
ghost use Rattle.std.specs.Arc.{arc_value};
ghost use Rattle.ft_base.specs.declared.limits.TheConstants.{HOST_LIMIT};
ghost use Rattle.ft_base.specs.declared.views.TheConstants.{MEMBER_LIMIT};
ghost use Rattle.hist_lock.specs.Passes.{first_pass};
ghost use Rattle.group_core.specs.Cores.{Stands};
ghost use Rattle.group_model.specs.Openings.{first_view};
ghost use Rattle.live_group.specs.Opening.{first_hosts};
ghost use Rattle.live_run.specs.Runs.{account, kill_of, opening_account, type_name};

use ft_base::{Name, NoMemory};
use iogr_reference::Ports;
use live_group::{OpenGroup, open_group};
use live_monitor::Kill;
use live_words::LiveWords;
use outside_crews::CalmKeeper;
use shipped_servants::{Kind, Shipped};
use std::alloc::Global;

/// Which host is to be killed, and when.
pub fn kill_of(live: &LiveWords) -> Option<Kill>
    ensures { result ≡ kill_of live.now }
{
    match live.kill {
        None => None,
        Some(host) => Some(Kill {
            host,
            after: u32::from(live.after),
        }),
    }
}

/// The name of an account's type.
pub fn account_type(alloc: Global) -> Result<Name, NoMemory>
    ensures { IfOk result (λ name. name ≡ type_name) }
{
    match Name::of(alloc, Kind::Account.type_id()) {
        Ok(name) => Ok(name),
        Err(_) => Err(NoMemory),
    }
}

// Equal ports.
fn copy_of(alloc: Global, ports: &Ports) -> Result<Ports, NoMemory>
    ensures { IfOk result (λ copy. copy ≡ ports.now) }
{
    match Vec::from_slice(alloc, ports.as_slice()) {
        Ok(ports) => Ok(Ports::from_vec(ports)),
        Err(_) => Err(NoMemory),
    }
}

/// Opens an account as the group of a run.
pub fn open_account(
    alloc: Global,
    live: &LiveWords,
    ports: &Ports,
) -> Result<OpenGroup<Shipped, CalmKeeper>, NoMemory>
    requires few { live.now.hosts ≤ MEMBER_LIMIT }
    requires ports { HOST_LIMIT ≤ length ports.now }
    ensures stands { IfOk result (λ made. Stands account (arc_value made.group).lock.opening.core (opening_account live.now)) }
    ensures plan { IfOk result (λ made. (arc_value made.group).lock.opening.core.log.plan ≡ Some []) }
    ensures pass { IfOk result (λ made. made.main ≡ first_pass (arc_value made.group).lock) }
    ensures name { IfOk result (λ made. (arc_value made.group).type_id ≡ type_name) }
    ensures view { IfOk result (λ made. made.view ≡ first_view live.now.style (first_hosts live.now.hosts)) }
    ensures hosts { IfOk result (λ made. AllByRecursion (λ host. host < HOST_LIMIT) made.view.members) }
{
    let account = Shipped::open(alloc, Kind::Account)?;
    let name = account_type(alloc)?;
    let ports = copy_of(alloc, ports)?;
    let keeper = CalmKeeper::new(alloc);
    open_group(alloc, live.style, live.hosts, account, keeper, name, ports)
}
