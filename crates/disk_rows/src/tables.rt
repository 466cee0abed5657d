//! The table: steps of a log on a disk whose calls fail in turn, with a crash at every moment.

use crate::disks::kept_text;
use crate::steps::{Step, make, step_of, text_after, text_from};
use anyhow::{Context, Result, bail};
use disk_log::{DiskLog, MemDisk};
use ft_outside::Kept;
use octet_words::{first_word, no_memory};
use std::alloc::Global;

/// How many calls and bytes a disk keeps.
const ROOM: usize = 1000;

/// Of so many writes that aren't synced, the first ones and the last ones, all that a crash may leave is tried.
const TORN: u32 = 4;

/// A step is tried so often.
const TRIES: u32 = 4;

/// The lists of which an image may hold one, and how many images were opened.
#[derive(Drop)]
struct Trial {
    lists: Vec<String>,
    images: u64,
}

// The records that an image holds.
fn held(alloc: Global, image: &[u8]) -> Result<String> {
    let disk = MemDisk::new(alloc, image, 1, &[]).map_err(no_memory)?;
    match DiskLog::open(alloc, disk) {
        Ok(log) => text_from(alloc, &log, 0),
        Err((fault, _disk)) => bail!("{fault}"),
    }
}

fn is_among(text: &str, lists: &[String]) -> bool {
    for list in lists {
        if list.as_str() == text {
            return true;
        }
    }
    false
}

// Opens the image of a moment and a pattern.
fn open_image(
    alloc: Global,
    disk: &MemDisk,
    moment: usize,
    pattern: u32,
    trial: &mut Trial,
) -> Result<()> {
    let image = disk.image_at(alloc, moment, pattern).map_err(no_memory)?;
    let text = held(alloc, image.as_slice())?;
    if !is_among(text.as_str(), trial.lists.as_slice()) {
        bail!("at moment {moment} an image holds{text}");
    }
    trial.images = trial.images.saturating_add(1);
    Ok(())
}

// Opens the images of these moments.
fn crash(alloc: Global, disk: &MemDisk, from: usize, trial: &mut Trial) -> Result<()> {
    for moment in from..disk.moment().saturating_add(1) {
        let writes = disk.unsynced(moment);
        let later = 4u32.saturating_pow(writes.saturating_sub(TORN));
        for pattern in 0..4u32.saturating_pow(writes.min(TORN)) {
            open_image(alloc, disk, moment, pattern, trial)?;
            if later > 1 {
                open_image(alloc, disk, moment, pattern.saturating_mul(later), trial)?;
            }
        }
    }
    Ok(())
}

// One step, with a crash at each of its moments, and one behind it.
fn try_step(
    alloc: Global,
    log: &mut DiskLog<MemDisk>,
    step: &Step,
    trial: &mut Trial,
) -> Result<Kept> {
    let from = log.disk().moment();
    trial.lists.push(text_after(alloc, log, step)?)?;
    let kept = make(alloc, log, step)?;
    crash(alloc, log.disk(), from, trial)?;
    if kept == Kept::Done {
        trial.lists.clear();
        trial.lists.push(text_from(alloc, log, 0)?)?;
        crash(alloc, log.disk(), log.disk().moment(), trial)?;
    }
    Ok(kept)
}

// Each step until it is done; how each try ended is told.
fn run(
    alloc: Global,
    log: &mut DiskLog<MemDisk>,
    steps: &[Step],
    trial: &mut Trial,
) -> Result<String> {
    let mut told = String::new(alloc);
    for step in steps {
        for _ in 0..TRIES {
            let kept = try_step(alloc, log, step, trial)?;
            told.push(' ')?;
            told.push_str(kept_text(kept))?;
            if kept == Kept::Done {
                break;
            }
        }
    }
    Ok(told)
}

// The steps on a disk of which these calls fail.
fn run_over(rt: &HostRuntime, fails: &[u64], steps: &[Step]) -> Result<()> {
    let disk = MemDisk::new(rt.alloc(), &[], ROOM, fails).map_err(no_memory)?;
    let mut log = match DiskLog::create(rt.alloc(), disk) {
        Ok(log) => log,
        Err((fault, _disk)) => {
            println!(rt; "    {fault}")?;
            return Ok(());
        }
    };
    let mut trial = Trial {
        lists: Vec::new(rt.alloc()),
        images: 0,
    };
    trial.lists.push(String::new(rt.alloc()))?;
    let told = run(rt.alloc(), &mut log, steps, &mut trial)?;
    println!(rt; "   {told}: {} images", trial.images)?;
    Ok(())
}

/// `LAST WIDTH STEP, STEP, ..`: the steps, where of the disk's calls so many fail one behind another, from call 1 on, from
/// call 2 on, and so on up to the last.
pub fn table(rt: &HostRuntime, words: &str) -> Result<()> {
    let (last, words) = first_word(words);
    let (width, words) = first_word(words);
    let (last, width) = (last.parse::<u32>()?, width.parse::<u32>()?);
    let mut steps = Vec::new(rt.alloc());
    for words in words.split(", ") {
        steps.push(step_of(rt.alloc(), words)?)?;
    }
    for first in 0..last {
        let mut fails = Vec::new(rt.alloc());
        for more in 0..width {
            fails.push(1 + u64::from(first) + u64::from(more))?;
        }
        run_over(rt, fails.as_slice(), steps.as_slice()).context("the table")?;
    }
    Ok(())
}
