//! The callers of a run's clients.
ghost use Rattle.std.specs.Prelude.{◌≡◌, length, map, IfOk, OnErr};
ghost use Rattle.std.specs.List.{AllByRecursion};
ghost use Rattle.live_net.specs.Callers.{AreCallers, IsUnused};

use ft_base::NoMemory;
use outside_links::{Acceptor, Dialer, Link, Network};
use std::alloc::Global;

/// Has the network hand out so many callers. It takes its memory before the first, so that either all are made or none.
pub fn make_callers<L: Link, A: Acceptor<L>, D: Dialer<L>, N: Network<L, A, D>>(
    alloc: Global,
    net: &mut N,
    count: u8,
) -> Result<Vec<D>, NoMemory>
    ensures all { IfOk result (λ callers. length callers.items ≡ count) }
    ensures callers { IfOk result (λ callers. AreCallers (N.callers net.old) (N.callers net.new) (map D.links callers.items)) }
    ensures unused { IfOk result (λ callers. AllByRecursion (λ c. IsUnused (D.count c) (D.lent c) (D.sent c) (D.targets c)) callers.items) }
    ensures none { OnErr result (N.callers net.new ≡ N.callers net.old) }
    ensures faults { N.count net.new ≡ N.count net.old }
    ensures broken { N.broken net.new ≡ N.broken net.old }
{
    let Ok(mut callers) = Vec::with_capacity(alloc, count as usize) else {
        return Err(NoMemory);
    };
    for _made in 0..count {
        callers.push_reserved(net.caller());
    }
    Ok(callers)
}
