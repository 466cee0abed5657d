//! A host of the group serves a link.
ghost use Rattle.std.specs.Prelude.{◌≡◌, ◌<◌};
ghost use Rattle.ft_base.specs.declared.limits.TheConstants.{HOST_LIMIT};
ghost use Rattle.hist_lock.specs.Passes.{IsOf};
ghost use Rattle.link_serving.specs.Wires.{wire};
ghost use Rattle.shared_port.specs.Links.{IsLinkServed};

use crate::ports::LockedPort;
use ft_base::{HostNo, Servant};
use ft_outside::Keeper;
use link_serving::{Visit, serve_visit};
use outside_links::Link;
use shared_group::{Pass, SharedGroup};
use std::alloc::Global;
use std::sync::Wait;

/// A host of a group behind a lock serves a link until that ends. Each request for the group is a turn of this pass.
pub fn serve_group<R: Wait, S: Servant + Drop, K: Keeper + Drop, L: Link>(
    rt: &R,
    alloc: Global,
    host: HostNo,
    group: &SharedGroup<S, K>,
    pass: &mut Pass<S, K>,
    link: &mut L,
) -> Visit
    requires own { IsOf group.now.lock pass.old }
    requires host { host.0 < HOST_LIMIT }
    ensures own { IsOf group.now.lock pass.new }
    ensures served { IsLinkServed S.machine group.now host.0 pass.old (wire (L.left link.old) (L.holds link.old) (L.faults link.old))
        pass.new (wire (L.left link.new) (L.holds link.new) (L.faults link.new)) result }
    ensures closed { L.closed link.new ≡ L.closed link.old }
{
    let port = LockedPort::new(rt, alloc, group);
    serve_visit(rt, alloc, host, &port, pass, link)
}
