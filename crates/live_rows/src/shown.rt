//! What the output of a live run says.

use anyhow::{Context, Result, bail};
use octet_words::first_word;
use std::alloc::Global;

/// What the lines of a run say together.
#[derive(Drop)]
pub struct Shown {
    /// The values in which calls ended, in rising order.
    pub values: Vec<u64>,
    /// How many calls ended in TRANSIENT, and how many in neither.
    pub transient: u32,
    pub others: u32,
    /// How many ends differ from the group's reply.
    pub differing: u32,
    /// The group's version, and how many entries its journal has.
    pub version: u64,
    pub entries: u64,
    /// The hosts that have a state.
    pub loaded: Vec<u8>,
}

// `client I call J END`, of which these are the words behind `client`.
fn read_call(shown: &mut Shown, words: &str) -> Result<()> {
    let mut words = words.split_whitespace().skip(3);
    let kind = words.next().context("no end")?;
    let end = words.next().context("no end")?;
    match (kind, end) {
        ("value", value) => shown.values.push(value.parse::<u64>()?)?,
        ("system", "TRANSIENT") => shown.transient = shown.transient.saturating_add(1),
        _ => shown.others = shown.others.saturating_add(1),
    }
    if words.any(|word| word == "differs") {
        shown.differing = shown.differing.saturating_add(1);
    }
    Ok(())
}

// `show bank view V entries E ..`, likewise.
fn read_group(shown: &mut Shown, words: &str) -> Result<()> {
    let mut words = words.split_whitespace().skip(2);
    shown.version = words.next().context("no version")?.parse::<u64>()?;
    shown.entries = words.nth(1).context("no entries")?.parse::<u64>()?;
    Ok(())
}

// `member X ROLE ..`, likewise.
fn read_member(shown: &mut Shown, words: &str) -> Result<()> {
    let (host, standing) = first_word(words);
    if standing.split_whitespace().any(|word| word == "state") {
        shown.loaded.push(host.parse::<u8>()?)?;
    }
    Ok(())
}

fn read_line(shown: &mut Shown, line: &str) -> Result<()> {
    let (kind, words) = first_word(line);
    match kind {
        "client" => read_call(shown, words),
        "show" => read_group(shown, words),
        "member" => read_member(shown, words),
        _ => bail!("no line: {line}"),
    }
}

impl Shown {
    /// What these lines say.
    pub fn read(alloc: Global, text: &[u8]) -> Result<Shown> {
        let mut shown = Shown {
            values: Vec::new(alloc),
            transient: 0,
            others: 0,
            differing: 0,
            version: 0,
            entries: 0,
            loaded: Vec::new(alloc),
        };
        for line in std::str::from_utf8(text)?.lines() {
            read_line(&mut shown, line)?;
        }
        shown.values.sort()?;
        Ok(shown)
    }

    /// Whether no value is there twice.
    pub fn has_no_value_twice(&self) -> bool {
        self.values
            .as_slice()
            .windows(2)
            .all(|pair| pair[0] < pair[1])
    }

    /// Whether all values are from 1 to this one.
    pub fn has_values_within(&self, most: u64) -> bool {
        self.values
            .iter()
            .all(|value| *value >= 1 && *value <= most)
    }
    /// Whether the values are those from 1 to this one, each once.
    pub fn is_each_once(&self, most: u64) -> bool {
        self.values.len() as u64 == most
            && self.has_values_within(most)
            && self.has_no_value_twice()
    }
}
