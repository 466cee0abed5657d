//! The writing calls of a log, and what its records are.

use anyhow::{Result, anyhow, bail};
use disk_log::{Disk, DiskLog};
use ft_base::Bytes;
use ft_outside::{Keeper, Kept};
use octet_words::{first_word, no_memory, octets, octets_text};
use std::alloc::Global;

/// A writing call of a log.
#[derive(Drop)]
pub enum Step {
    Append(Vec<u8>),
    Cut(u64),
}

/// `append OCTETS` or `cut NUMBER`
pub fn step_of(alloc: Global, words: &str) -> Result<Step> {
    let (verb, word) = first_word(words);
    match verb {
        "append" => Ok(Step::Append(octets(alloc, word)?)),
        "cut" => Ok(Step::Cut(word.parse::<u64>()?)),
        _ => Err(anyhow!("no step: {words}")),
    }
}

/// Makes a step.
pub fn make<D: Disk + Drop>(alloc: Global, log: &mut DiskLog<D>, step: &Step) -> Result<Kept> {
    match step {
        Step::Append(octets) => {
            log.reserve(alloc, 1).map_err(no_memory)?;
            let piece = Bytes::of(alloc, octets.as_slice()).map_err(no_memory)?;
            Ok(log.append(piece))
        }
        Step::Cut(first) => {
            if *first > log.count() {
                bail!("fewer records than {first}");
            }
            Ok(log.cut(*first))
        }
    }
}

fn add_text(alloc: Global, text: &mut String, octets: &[u8]) -> Result<()> {
    text.push(' ')?;
    text.push_str(octets_text(alloc, octets)?.as_str())?;
    Ok(())
}

/// The records behind the first ones, a blank before each.
pub fn text_from<D: Disk + Drop>(alloc: Global, log: &DiskLog<D>, first: u64) -> Result<String> {
    let mut text = String::new(alloc);
    for index in first..log.count() {
        if let Some(record) = log.read(index) {
            add_text(alloc, &mut text, record.bytes())?;
        }
    }
    Ok(text)
}

/// The records that a step is to make.
pub fn text_after<D: Disk + Drop>(alloc: Global, log: &DiskLog<D>, step: &Step) -> Result<String> {
    match step {
        Step::Append(octets) => {
            let mut text = text_from(alloc, log, 0)?;
            add_text(alloc, &mut text, octets.as_slice())?;
            Ok(text)
        }
        Step::Cut(first) => text_from(alloc, log, *first),
    }
}
