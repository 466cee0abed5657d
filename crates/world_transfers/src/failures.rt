//! `logfail G`.
ghost use Rattle.std.specs.Prelude.{ℕ};
ghost use Rattle.script_world.specs.Sound.{IsKeptWorld};
ghost use Rattle.world_transfers.specs.Transfers.{logfail_line};
ghost use Rattle.world_turns.specs.Answers.{Acts};

use fault_script::LineFault;
use ft_base::{Name, NoMemory};
use ft_report::ReportLines;
use script_world::World;
use world_turns::{Named, gone, group_called};

/// `logfail G`
pub fn logfail_line(world: &mut World, name: &Name) -> Result<ReportLines, LineFault>
    requires { IsKeptWorld world.old }
    ensures { (calls : ℕ) → Acts (logfail_line world.old name.now) result world.old world.new calls calls }
{
    let place = match group_called(world, name) {
        Named::There(place) => place,
        Named::Deleted(_) => return gone(world),
        Named::Never => return Err(LineFault::Unknown),
    };
    match world.fail_log_at(place) {
        Ok(()) => Ok(ReportLines::new(world.alloc())),
        Err(NoMemory) => Err(LineFault::NoMemory),
    }
}
