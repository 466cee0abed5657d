//! What came of a link, as it is printed.

use anyhow::Result;
use link_serving::Ended;
use link_words::Turns;
use row_words::put_hex;

/// How a link was left, how many requests were asked and how many objects looked for, and what was written.
pub fn put_served(ended: Ended, turns: &Turns, written: &[u8], out: &mut String) -> Result<()> {
    let Turns { asks, looks } = turns;
    write!(out, "{ended:?}, {asks} asked, {looks} looked: ")?;
    if written.is_empty() {
        out.push('-')?;
    }
    Ok(put_hex(written, out)?)
}
