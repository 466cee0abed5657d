//! A stop of everything: what the disk holds is all that is left.
ghost use Rattle.std.specs.Prelude.{◌≡◌, true, [], slice_get, IfOk};
ghost use Rattle.group_core.specs.Trying.{IsSome};

use anyhow::{Result, bail};
use disk_log::{DiskLog, MemDisk};
use ft_base::Servant;
use ft_outside::Keeper;
use group_core::{GroupCore, cores_may_go_on};
use message_log::Log;
use octet_words::no_memory;
use std::alloc::Global;

/// How many calls and bytes a disk keeps.
const ROOM: usize = 10_000;

/// A log on an empty disk.
pub fn new_log(alloc: Global) -> Result<DiskLog<MemDisk>>
    ensures { IfOk result (λ log. log.records ≡ []) }
{
    let disk = MemDisk::new(alloc, &[], ROOM, &[]).map_err(no_memory)?;
    match DiskLog::create(alloc, disk) {
        Ok(log) => Ok(log),
        Err((fault, _disk)) => bail!("{fault}"),
    }
}

#[tactic(auto, using(crate::proofs::Going::same_record))]
fn is_same_at<K: Keeper>(one: &K, other: &K, index: u64) -> bool
    ensures { result ≡ true → slice_get (K.records one.now) index ≡ slice_get (K.records other.now) index }
{
    match one.read(index) {
        None => false,
        Some(record) => {
            match other.read(index) {
                None => false,
                Some(copy) => record.is(copy),
            }
        }
    }
}

/// Whether two keepers have the same records.
#[tactic(auto, using(crate::proofs::Going::one_more, crate::proofs::Going::same_at_each))]
fn are_same<K: Keeper>(one: &K, other: &K) -> bool
    ensures { result ≡ true → K.records one.now ≡ K.records other.now }
{
    let count = one.count();
    if other.count() != count {
        return false;
    }
    for index in 0..count {
        if !is_same_at(one, other, index) {
            return false;
        }
    }
    true
}

// Opens what a crash now leaves of a log's disk.
fn open_image(alloc: Global, log: &DiskLog<MemDisk>) -> Result<DiskLog<MemDisk>> {
    let disk = log.disk();
    let image = disk.image_at(alloc, disk.moment(), 0).map_err(no_memory)?;
    let disk = MemDisk::new(alloc, image.as_slice(), ROOM, &[]).map_err(no_memory)?;
    match DiskLog::open(alloc, disk) {
        Ok(log) => Ok(log),
        Err((fault, _disk)) => bail!("{fault}"),
    }
}

/// Opens it, and sees that the records are those of the log.
fn open_again(alloc: Global, log: &DiskLog<MemDisk>) -> Result<DiskLog<MemDisk>>
    ensures { IfOk result (λ again. again.records ≡ log.now.records) }
{
    let again = open_image(alloc, log)?;
    if !are_same(&again, log) {
        bail!("other records");
    }
    Ok(again)
}

/// Moves a log to an empty disk, and opens what a crash leaves there.
fn try_move(rt: &HostRuntime, log: &DiskLog<MemDisk>) -> Result<()> {
    let fresh = MemDisk::new(rt.alloc(), &[], ROOM, &[]).map_err(no_memory)?;
    let moved = match log.move_to(rt.alloc(), fresh) {
        Ok(moved) => moved,
        Err((fault, _disk)) => bail!("{fault}"),
    };
    let again = open_again(rt.alloc(), &moved)?;
    if !are_same(&again, log) {
        bail!("other records");
    }
    println!(rt;
        "moved to an empty disk, and opened there: the same {} records",
        again.count()
    )?;
    Ok(())
}

/// Everything stops. The disk's image is opened, and the group goes on over its log.
pub fn stop<S: Servant + Drop>(
    rt: &HostRuntime,
    core: GroupCore<S, DiskLog<MemDisk>>,
) -> Result<GroupCore<S, DiskLog<MemDisk>>>
    requires { IsSome S.machine core }
    ensures { IfOk result (λ again. IsSome S.machine again) }
{
    cores_may_go_on();
    let group = core.group();
    let style = core.style();
    let (opening, log) = core.into_parts();
    log.is_written_down();
    let left = log.into_keeper();
    let opened = open_again(rt.alloc(), &left)?;
    println!(rt;
        "all stops, and the disk is opened: the same {} records",
        opened.count()
    )?;
    try_move(rt, &opened)?;
    let log = match Log::reopen(rt.alloc(), opened) {
        Ok(log) => log,
        Err((fault, _log)) => bail!("{fault}"),
    };
    match GroupCore::resume(rt.alloc(), group, style, opening, log) {
        Ok(core) => Ok(core),
        Err(_) => bail!("no memory"),
    }
}
