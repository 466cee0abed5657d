//! What a group is like.
ghost use Rattle.std.specs.Prelude.{◌≡◌, ◌<◌, ◌++◌, map, Some, option_map, IfOk, OnOk};
ghost use Rattle.ft_base.specs.declared.limits.TheConstants.{HOST_LIMIT};
ghost use Rattle.ft_base.specs.declared.requests.Key.{Key as AKey};
ghost use Rattle.reply_table.specs.Entries.{holder};
ghost use Rattle.reply_table.specs.declared.entries.Retained.{Retained as Entry};
ghost use Rattle.group_model.specs.Plain.{Group};
ghost use Rattle.group_model.specs.Views.{newest_view};
ghost use Rattle.group_core.specs.Cores.{Stands};
ghost use Rattle.group_stands.specs.Replying.{held_reply};
ghost use Rattle.group_looks.specs.Looks.{AreFigures, figure_of, formers, is_former, standing};

use ft_base::{
    Bytes, HOST_LIMIT, HostNo, Key, Name, NoMemory, Outcome, Request, Servant, Tick, Version, View,
};
use ft_outside::Keeper;
use group_core::{GroupCore, cores_tell};
use message_log::Log;
use reply_table::Found;
use std::alloc::Global;

/// What a host is like.
#[derive(Drop)]
pub struct Figure {
    pub host: HostNo,
    pub up: bool,
    pub known: Version,
    /// The position of its servant and the state there, where it has one.
    pub at: Option<(u32, Bytes)>,
}

/// What a group is like: its newest view, the length of its journal, how many entries the checkpoint covers, and its
/// time; then its members in order of joining, and the hosts that were members and have a servant still, by number.
#[derive(Drop)]
pub struct Figures {
    pub view: View,
    pub entries: u32,
    pub mark: u32,
    pub time: Tick,
    pub hosts: Vec<Figure>,
}

// The newest view.
fn newest<S: Servant + Drop, K: Keeper>(core: &GroupCore<S, K>) -> &View
    requires { (g : Group) × Stands S.machine core.now g }
    ensures { (g : Group) → Stands S.machine core.now g → result.now ≡ newest_view g.common }
{
    cores_tell();
    core.log().newest()
}

// The position and the state of a host's servant.
fn standing<S: Servant + Drop, K: Keeper>(
    alloc: Global,
    core: &GroupCore<S, K>,
    host: HostNo,
) -> Result<Option<(u32, Bytes)>, NoMemory>
    requires stands { (g : Group) × Stands S.machine core.now g }
    requires host { host.0 < HOST_LIMIT }
    ensures { (g : Group) → Stands S.machine core.now g → IfOk result (λ at. at ≡ standing (S.machine g.common.kind) g.common (g.hosts host.0).place) }
{
    cores_tell();
    match core.replica(host) {
        None => Ok(None),
        Some(replica) => {
            let state = replica.state(alloc)?;
            Ok(Some((replica.position(), state)))
        }
    }
}

fn figure_of<S: Servant + Drop, K: Keeper>(
    alloc: Global,
    core: &GroupCore<S, K>,
    host: u8,
) -> Result<Figure, NoMemory>
    requires stands { (g : Group) × Stands S.machine core.now g }
    requires host { host < HOST_LIMIT }
    ensures { (g : Group) → Stands S.machine core.now g → IfOk result (λ figure. figure ≡ figure_of (S.machine g.common.kind) g host) }
{
    cores_tell();
    let host = HostNo(host);
    let up = !core.down(host);
    let known = core.known(host);
    let at = standing(alloc, core, host)?;
    Ok(Figure {
        host,
        up,
        known,
        at,
    })
}

fn push_members<S: Servant + Drop, K: Keeper>(
    alloc: Global,
    core: &GroupCore<S, K>,
    figures: &mut Vec<Figure>,
) -> Result<(), NoMemory>
    requires { (g : Group) × Stands S.machine core.now g }
    ensures { (g : Group) → Stands S.machine core.now g → OnOk result (figures.new.items ≡ figures.old.items ++ map (figure_of (S.machine g.common.kind) g) (newest_view g.common).members) }
{
    cores_tell();
    for host in newest(core).members.hosts() {
        let figure = figure_of(alloc, core, *host)?;
        figures.push(figure)?;
    }
    Ok(())
}

fn is_former<S: Servant + Drop, K: Keeper>(core: &GroupCore<S, K>, host: u8) -> bool
    requires stands { (g : Group) × Stands S.machine core.now g }
    requires host { host < HOST_LIMIT }
    ensures { (g : Group) → Stands S.machine core.now g → result ≡ is_former g host }
{
    cores_tell();
    let host = HostNo(host);
    !newest(core).members.has(host) && core.replica(host).is_some()
}

fn push_formers<S: Servant + Drop, K: Keeper>(
    alloc: Global,
    core: &GroupCore<S, K>,
    figures: &mut Vec<Figure>,
) -> Result<(), NoMemory>
    requires { (g : Group) × Stands S.machine core.now g }
    ensures { (g : Group) → Stands S.machine core.now g → OnOk result (figures.new.items ≡ figures.old.items ++ map (figure_of (S.machine g.common.kind) g) (formers g)) }
{
    for host in 0..HOST_LIMIT as u8 {
        if is_former(core, host) {
            let figure = figure_of(alloc, core, host)?;
            figures.push(figure)?;
        }
    }
    Ok(())
}

/// What the group of a core is like.
pub fn figures_of<S: Servant + Drop, K: Keeper>(
    alloc: Global,
    core: &GroupCore<S, K>,
) -> Result<Figures, NoMemory>
    requires { (g : Group) × Stands S.machine core.now g }
    ensures { (g : Group) → Stands S.machine core.now g → IfOk result (AreFigures (S.machine g.common.kind) g) }
{
    cores_tell();
    let mut hosts: Vec<Figure> = Vec::new(alloc);
    push_members(alloc, core, &mut hosts)?;
    push_formers(alloc, core, &mut hosts)?;
    let log = core.log();
    Ok(Figures {
        view: newest(core).copy(),
        entries: log.length(),
        mark: log.mark(),
        time: log.time(),
        hosts,
    })
}

// A request with this key, which asks nothing.
fn keyed(alloc: Global, key: Key) -> Result<Request, NoMemory>
    ensures { IfOk result (λ request. request.key ≡ Some key) }
{
    let op = match Name::of(alloc, b"reply".as_slice()) {
        Ok(name) => name,
        Err(_) => return Err(NoMemory),
    };
    Ok(Request {
        key: Some(key),
        op,
        args: Bytes::from_vec(Vec::new(alloc)),
    })
}

// The position of the entry that holds the key of a request, at the log's time.
fn position_held<K: Keeper>(log: &Log<K>, request: &Request) -> Option<u32>
    ensures { (key : AKey) → request.now.key ≡ Some key → result ≡ option_map (λ (r : Entry). r.position) (holder log.now.table key log.now.time) }
{
    match log.table().find(request, log.time()) {
        Found::Fresh => None,
        Found::Same(position) | Found::Other(position) => Some(position),
    }
}

/// The reply that the group of a core holds for a key.
pub fn reply_to<S: Servant + Drop, K: Keeper>(
    alloc: Global,
    core: &GroupCore<S, K>,
    key: Key,
) -> Result<Option<Outcome>, NoMemory>
    requires { (g : Group) × Stands S.machine core.now g }
    ensures { (g : Group) → Stands S.machine core.now g → IfOk result (λ found. found ≡ held_reply (S.machine g.common.kind) g.common key) }
{
    cores_tell();
    let request = keyed(alloc, key)?;
    let log = core.log();
    let Some(position) = position_held(log, &request) else {
        return Ok(None);
    };
    match log.table().reply(position) {
        None => Ok(None), // no host has run it
        Some(reply) => {
            let reply = reply.copy(alloc)?;
            Ok(Some(reply))
        }
    }
}
