//! A disk that is a file of the system. What a file holds no contract can say.
use crate::disks::Disk;
use ft_outside::{Kept, next_count};
use std::fs::{File, TryLockError};
use std::io;
use std::os::fd::AsRawFd;
use std::os::unix::fs::FileExt;

/// A disk over a file, which is locked against all others that ask for its lock. Once a sync has failed each further call
/// fails: the system may have dropped what was written and say nothing of it at the next sync. Open the file anew then.
#[derive(Drop)]
pub struct FileDisk {
    file: File,
    size: u64,
    broken: bool,
    faults: u64,
}

/// The folder of a path.
fn folder_of(path: &str) -> &str {
    match path.rsplit_once('/') {
        Some(("", _)) => "/",
        Some((folder, _)) => folder,
        None => ".",
    }
}

fn lock(file: &File) -> io::Result<()> {
    match file.try_lock() {
        Ok(()) => Ok(()),
        Err(TryLockError::WouldBlock) => Err(io::ErrorKind::WouldBlock.into()),
        Err(TryLockError::Error(error)) => Err(error),
    }
}

impl FileDisk {
    /// A disk over a new file, whose name stands in its folder whatever comes. The error's kind is AlreadyExists where
    /// there is one. Where the call fails later the file stays.
    pub fn create(rt: &HostRuntime, path: &str) -> io::Result<FileDisk> {
        let file = File::create_new(rt, path)?;
        lock(&file)?;
        file.sync_all()?;
        File::open(rt, folder_of(path))?.sync_all()?;
        FileDisk::of(file)
    }

    /// A disk over a file that is there. The error's kind is WouldBlock where another disk has it. What the system holds
    /// of the file is written first, and then dropped: a page that once couldn't be written may differ from the device.
    pub fn open(rt: &HostRuntime, path: &str) -> io::Result<FileDisk> {
        let file = File::options().read(true).write(true).open(rt, path)?;
        lock(&file)?;
        file.sync_all()?;
        let advised = libc::posix_fadvise(file.as_raw_fd(), 0, 0, libc::POSIX_FADV_DONTNEED);
        if advised != 0 {
            return Err(io::Error::from_raw_os_error(advised));
        }
        FileDisk::of(file)
    }

    fn of(file: File) -> io::Result<FileDisk> {
        let size = file.metadata()?.len();
        Ok(FileDisk {
            file,
            size,
            broken: false,
            faults: 0,
        })
    }
}

impl Disk for FileDisk {
    ghost gives = { λ _ _. ⊥ };

    ghost images = { λ _ _. ⊥ };

    ghost size = { λ disk. disk.size };

    ghost moment = { λ _. 0 };

    ghost since = { λ _ _ _. ⊥ };

    ghost faults = { λ disk. disk.faults };

    ghost gives_now = { λ _ _ none. none };

    ghost counts_now = { λ _ _ _ _ none. none };

    ghost only_now = { λ _ _ none. none };

    fn length(&self) -> u64 {
        self.size
    }

    fn read_at(&mut self, at: u64, into: &mut [u8]) -> Kept {
        if !self.broken && self.file.read_exact_at(into, at).is_ok() {
            return Kept::Done;
        }
        self.faults = next_count(self.faults);
        Kept::Failed
    }

    fn write_at(&mut self, at: u64, piece: &[u8]) -> Kept {
        if let Some(end) = at.checked_add(piece.len() as u64) {
            if !self.broken && self.file.write_all_at(piece, at).is_ok() {
                self.size = self.size.max(end);
                return Kept::Done;
            }
        }
        // It may have written some of the piece past the end.
        match self.file.metadata() {
            Ok(found) => self.size = self.size.max(found.len()),
            Err(_) => self.broken = true,
        }
        self.faults = next_count(self.faults);
        Kept::Failed
    }

    fn sync(&mut self) -> Kept {
        if !self.broken && self.file.sync_data().is_ok() {
            return Kept::Done;
        }
        self.broken = true;
        self.faults = next_count(self.faults);
        Kept::Failed
    }
}
