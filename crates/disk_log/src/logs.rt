//! A log on a disk: a keeper whose records outlive it.
ghost use Rattle.std.specs.Prelude.{◌≡◌, ◌⊎◌, ◌≤◌, ◌<◌, ◌+◌, ◌^◌, List, ℕ, [], ◌∷◌, ◌++◌, length, drop, IfOk, IfErr};
ghost use Rattle.std.specs.VecDeque.{deque_len, deque_capacity};
ghost use Rattle.ft_outside.specs.Keeping.{has_failed, records_after, IsCounted, plan_after, IsForetold};
ghost use Rattle.ft_outside.specs.Outside.{next_count};
ghost use Rattle.disk_log.specs.Disk.{Each, NoOthers, Elapses, LeavesOnly, OnFailed};
ghost use Rattle.disk_log.specs.Image.{Holds, HoldsOneOf};
ghost use Rattle.disk_log.specs.Standing.{Calm, IsRead, AreShort, IsNew, failed_after};
ghost use Rattle.disk_log.specs.Refusals.{IsUncreated, IsUnmoved, IsUnopened};

use crate::disks::Disk;
use crate::failures::Failed;
use crate::reading::{ImageFault, Opened, drop_first, read_image};
use crate::writing::{add_record, cut_records, write_image};
use ft_base::{Bytes, NoMemory};
use ft_outside::{Keeper, Kept, next_count};
use std::alloc::Global;
use std::collections::VecDeque;
use std::marker::Model;
use thiserror::Error;

/// Why a log can't be made or opened.
#[derive(Clone, Copy, Debug, PartialEq, Eq, Error)]
pub enum OpenFault {
    /// The disk has so many bytes.
    #[error("a disk of {0} bytes isn't empty")]
    NotEmpty(u64),
    /// At this place stands no marked record, and no closed mark.
    #[error("no log: at {0} stands no record and no end")]
    NotALog(u64),
    #[error("the disk failed")]
    Failed,
    #[error("no memory")]
    NoMemory,
}

/// A log on a disk. It keeps its records in memory besides.
#[derive(Drop)]
pub struct DiskLog<D: Disk + Drop> {
    disk: D,
    end: u64,
    doubt: bool,
    failed: Failed,
    records: VecDeque<Bytes>,
    spare: u32,
    faults: u64,
}

impl<D: Disk + Drop> Model for DiskLog<D> {
    ghost use Rattle.std.specs.VecDeque.{deque_len, deque_capacity};
    ghost use Rattle.disk_log.specs.Standing.{Ledger, IsKept};

    ghost Value = { Ledger D };

    ghost view = { λ l. record { records = l.records.items; failed = l.failed; spare = l.spare; faults = l.faults; disk = l.disk } };

    ghost invariant = { λ l. IsKept l.doubt (D.images l.disk) l.end l.records.items l.failed (D.size l.disk) (deque_len l.records) l.spare (deque_capacity l.records) };
}

fn zeros(alloc: Global, count: usize) -> Result<Vec<u8>, NoMemory>
    ensures { IfOk result (λ bytes. length bytes.items ≡ count) }
{
    Ok(vec![in alloc; 0; count]?)
}

/// Reads a disk into a slice of its length, and the image there.
fn read_into<D: Disk>(alloc: Global, disk: &mut D, bytes: &mut [u8]) -> Result<Opened, OpenFault>
    requires size { length bytes.old ≡ D.size disk.old }
    requires all { Each (D.gives disk.old) (λ r. length r ≡ length bytes.old) }
    ensures read { IfOk result (λ opened. IsRead bytes.new opened.records.items opened.end) }
    ensures given { IfOk result (λ _. Each (D.gives disk.old) (λ r. r ≡ bytes.new)) }
    ensures within { IfOk result (λ opened. opened.end + 1 ≤ D.size disk.new) }
    ensures fits { IfOk result (λ opened. opened.end + 1 < 2 ^ 64) }
    ensures images { NoOthers (D.images disk.old) (D.images disk.new) }
    ensures time { Elapses (D.moment disk.old) (D.moment disk.new) (D.since disk.old) (D.since disk.new) (D.images disk.new) }
    ensures cause { IfErr result (λ fault. IsUnopened fault (D.gives disk.old) (D.faults disk.old) (D.faults disk.new)) }
{
    match disk.read_at(0, bytes) {
        Kept::Failed => return Err(OpenFault::Failed),
        Kept::Done => {}
    }
    match read_image(alloc, bytes) {
        Ok(opened) => Ok(opened),
        Err(ImageFault::NotALog(place)) => Err(OpenFault::NotALog(place as u64)),
        Err(ImageFault::NoMemory) => Err(OpenFault::NoMemory),
    }
}

/// Reads a disk whole, once it is synced.
fn read_disk<D: Disk>(alloc: Global, disk: &mut D) -> Result<Opened, OpenFault>
    ensures opened { IfOk result (λ opened. Each (D.gives disk.old) (λ r. Holds r opened.records.items)) }
    ensures calm { IfOk result (λ opened. Calm (D.images disk.new) opened.end opened.records.items) }
    ensures within { IfOk result (λ opened. opened.end + 1 ≤ D.size disk.new) }
    ensures fits { IfOk result (λ opened. opened.end + 1 < 2 ^ 64) }
    ensures any_moment { LeavesOnly D.moment D.since disk.old disk.new (D.images disk.old) }
    ensures cause { IfErr result (λ fault. IsUnopened fault (D.gives disk.old) (D.faults disk.old) (D.faults disk.new)) }
{
    let length = disk.length();
    match disk.sync() {
        Kept::Failed => return Err(OpenFault::Failed),
        Kept::Done => {}
    }
    let mut bytes = match zeros(alloc, length as usize) {
        Ok(bytes) => bytes,
        Err(NoMemory) => return Err(OpenFault::NoMemory),
    };
    match read_into(alloc, disk, bytes.as_mut_slice()) {
        Ok(opened) => Ok(opened),
        Err(fault) => Err(fault),
    }
}

/// A copy of each record.
fn copies(alloc: Global, records: &VecDeque<Bytes>) -> Result<VecDeque<Bytes>, NoMemory>
    ensures { IfOk result (λ copies. copies.items ≡ records.now.items) }
{
    let mut copies = VecDeque::new(alloc);
    for index in 0..records.len() {
        let Some(record) = records.get(index) else {
            unreachable!()
        };
        copies.push_back(record.copy(alloc)?)?;
    }
    Ok(copies)
}

impl<D: Disk + Drop> DiskLog<D> {
    /// Makes the image of these records on an empty disk.
    fn lay(disk: D, records: VecDeque<Bytes>) -> Result<DiskLog<D>, (OpenFault, D)>
        requires { AreShort records.items }
        ensures made { IfOk result (λ log. IsNew log records.items) }
        ensures at_rest { IfOk result (λ log. Each (D.images log.disk) (λ c. Holds c log.records)) }
        ensures refused { IfErr result (λ refused. (refused.0 ≡ OpenFault.Failed) × (D.faults refused.1 ≡ next_count (D.faults disk))) }
    {
        let mut disk = disk;
        match write_image(&mut disk, &records) {
            None => Err((OpenFault::Failed, disk)),
            Some(end) => Ok(DiskLog {
                disk,
                end,
                doubt: false,
                failed: Failed::none(),
                records,
                spare: 0,
                faults: 0,
            }),
        }
    }

    /// Makes a log on an empty disk. A crash inside the call may leave anything. A refusal hands the disk back.
    pub fn create(alloc: Global, disk: D) -> Result<DiskLog<D>, (OpenFault, D)>
        ensures made { IfOk result (λ log. IsNew log []) }
        ensures at_rest { IfOk result (λ log. Each (D.images log.disk) (λ c. Holds c log.records)) }
        ensures empty { IfOk result (λ log. D.size disk ≡ 0) }
        ensures refused { IfErr result (λ refused. IsUncreated refused.0 (D.size disk) (D.faults disk) (D.faults refused.1)) }
    {
        let length = disk.length();
        if length > 0 {
            return Err((OpenFault::NotEmpty(length), disk));
        }
        match DiskLog::lay(disk, VecDeque::new(alloc)) {
            Ok(log) => Ok(log),
            Err(refused) => Err(refused),
        }
    }

    /// Opens the log that a disk holds. At each moment of the call a crash leaves what it might have left before. A
    /// refusal hands the disk back.
    pub fn open(alloc: Global, disk: D) -> Result<DiskLog<D>, (OpenFault, D)>
        ensures opened { IfOk result (λ log. Each (D.gives disk) (λ r. Holds r log.records)) }
        ensures new { IfOk result (λ log. IsNew log log.records) }
        ensures at_rest { IfOk result (λ log. Each (D.images log.disk) (λ c. Holds c log.records)) }
        ensures any_moment { IfOk result (λ log. LeavesOnly D.moment D.since disk log.disk (D.images disk)) }
        ensures any_moment_refused { IfErr result (λ refused. LeavesOnly D.moment D.since disk refused.1 (D.images disk)) }
        ensures refused { IfErr result (λ refused. IsUnopened refused.0 (D.gives disk) (D.faults disk) (D.faults refused.1)) }
    {
        let mut disk = disk;
        match read_disk(alloc, &mut disk) {
            Err(fault) => Err((fault, disk)),
            Ok(Opened { records, end }) => Ok(DiskLog {
                disk,
                end: end as u64,
                doubt: false,
                failed: Failed::none(),
                records,
                spare: 0,
                faults: 0,
            }),
        }
    }
}

impl<D: Disk + Drop> DiskLog<D> {
    /// Its disk.
    pub fn disk(&self) -> &D
        ensures { result.now ≡ self.now.disk }
    {
        &self.disk
    }

    /// Makes a log with the same records on an empty disk: all of it is written, and synced once. A crash inside the call
    /// may leave anything there. A refusal hands the disk back.
    pub fn move_to(&self, alloc: Global, fresh: D) -> Result<DiskLog<D>, (OpenFault, D)>
        ensures moved { IfOk result (λ log. IsNew log self.now.records) }
        ensures at_rest { IfOk result (λ log. Each (D.images log.disk) (λ c. Holds c log.records)) }
        ensures empty { IfOk result (λ log. D.size fresh ≡ 0) }
        ensures refused { IfErr result (λ refused. IsUnmoved refused.0 (D.size fresh) (D.faults fresh) (D.faults refused.1)) }
    {
        let found = fresh.length();
        if found > 0 {
            return Err((OpenFault::NotEmpty(found), fresh));
        }
        let records = match copies(alloc, &self.records) {
            Ok(records) => records,
            Err(NoMemory) => return Err((OpenFault::NoMemory, fresh)),
        };
        match DiskLog::lay(fresh, records) {
            Ok(log) => Ok(log),
            Err(refused) => Err(refused),
        }
    }
}

impl<D: Disk + Drop> Keeper for DiskLog<D> {
    ghost use Rattle.std.specs.Prelude.{None};

    ghost records = { λ log. log.records };

    ghost spare = { λ log. log.spare };

    ghost plan = { λ log. None };

    ghost faults = { λ log. log.faults };

    fn reserve(&mut self, _alloc: Global, pieces: u32) -> Result<(), NoMemory> {
        let spare = self.spare.max(pieces);
        self.records.reserve(spare as usize)?;
        self.spare = spare;
        Ok(())
    }

    /// Adds a record. At each moment of the call a crash leaves an image that holds the records without it or with it,
    /// or what one of the calls that failed since the last done one would have made.
    fn append(&mut self, piece: Bytes) -> Kept
        requires { 0 < self.old.spare }
        ensures room { self.new.spare + 1 ≡ self.old.spare }
        ensures records { self.new.records ≡ records_after result (self.old.records ++ piece ∷ []) self.old.records }
        ensures faults { IsCounted result self.old.faults self.new.faults }
        ensures failed { self.new.failed ≡ failed_after result (self.old.records ++ piece ∷ []) self.old.failed }
        ensures any_moment { LeavesOnly D.moment D.since self.old.disk self.new.disk (HoldsOneOf (self.old.records ∷ (self.old.records ++ piece ∷ []) ∷ self.old.failed)) }
        ensures at_rest { Each (D.images self.new.disk) (HoldsOneOf (self.new.records ∷ self.new.failed)) }
        ensures cause { OnFailed result ((D.faults self.new.disk ≡ next_count (D.faults self.old.disk)) ⊎ (2 ^ 32 ≤ length piece)) }
    {
        self.spare -= 1;
        match add_record(
            &mut self.disk,
            &mut self.end,
            &mut self.doubt,
            piece.bytes(),
        ) {
            Kept::Failed => {
                self.failed.note_append(&self.records, &piece);
                self.faults = next_count(self.faults);
                Kept::Failed
            }
            Kept::Done => {
                self.failed = Failed::none();
                self.records.push_back_reserved(piece);
                Kept::Done
            }
        }
    }

    /// Drops the first records. What a crash leaves is as of `append`.
    fn cut(&mut self, first: u64) -> Kept
        requires { first ≤ length self.old.records }
        ensures room { self.new.spare ≡ self.old.spare }
        ensures records { self.new.records ≡ records_after result (drop first self.old.records) self.old.records }
        ensures faults { IsCounted result self.old.faults self.new.faults }
        ensures failed { self.new.failed ≡ failed_after result (drop first self.old.records) self.old.failed }
        ensures any_moment { LeavesOnly D.moment D.since self.old.disk self.new.disk (HoldsOneOf (self.old.records ∷ drop first self.old.records ∷ self.old.failed)) }
        ensures at_rest { Each (D.images self.new.disk) (HoldsOneOf (self.new.records ∷ self.new.failed)) }
        ensures cause { OnFailed result (D.faults self.new.disk ≡ next_count (D.faults self.old.disk)) }
    {
        match cut_records(&mut self.disk, &mut self.end, &mut self.doubt, first) {
            Kept::Failed => {
                self.failed.note_cut(&self.records, first);
                self.faults = next_count(self.faults);
                Kept::Failed
            }
            Kept::Done => {
                self.failed = Failed::none();
                drop_first(&mut self.records, first);
                Kept::Done
            }
        }
    }

    fn count(&self) -> u64 {
        self.records.len() as u64
    }

    fn read(&self, index: u64) -> Option<&Bytes> {
        self.records.get(index as usize)
    }
}
