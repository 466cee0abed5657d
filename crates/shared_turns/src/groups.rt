//! The groups that are shared: an account each.
ghost use Rattle.std.specs.Prelude.{IfOk};
ghost use Rattle.hist_lock.specs.Passes.{IsOf};

use deposit_callers::open_group;
use ft_base::{NoMemory, Style};
use outside_crews::CalmKeeper;
use shared_group::{Pass, SharedGroup};
use shipped_servants::{Kind, Shipped};
use std::alloc::Global;

pub type Group = SharedGroup<Shipped, CalmKeeper>;

pub type Seat = Pass<Shipped, CalmKeeper>;

/// A group of this style behind a lock, and its first pass.
pub fn open(alloc: Global, style: Style) -> Result<(Group, Seat), NoMemory>
    ensures { IfOk result (λ made. IsOf made.0.lock made.1) }
{
    let account = Shipped::open(alloc, Kind::Account)?;
    open_group(alloc, style, account, CalmKeeper::new(alloc))
}
