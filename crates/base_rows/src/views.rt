//! Views as words.

use anyhow::{Result, bail};
use ft_base::{HostNo, MEMBER_LIMIT, Members, Version, View};
use octet_words::first_word;

// Hosts joined by commas; one that is a member already is passed over.
fn members(words: &str) -> Result<Members> {
    let mut members = Members::new();
    for word in words.split(',') {
        let host = HostNo(word.parse::<u8>()?);
        if members.has(host) {
            continue;
        }
        if members.len() == MEMBER_LIMIT {
            bail!("too many members");
        }
        members.join(host);
    }
    Ok(members)
}

/// The view that words say: `VERSION HOSTS PRIMARY`.
pub fn view(words: &str) -> Result<View> {
    let (version, words) = first_word(words);
    let (hosts, primary) = first_word(words);
    Ok(View {
        version: Version(version.parse::<u32>()?),
        members: members(hosts)?,
        primary: Some(HostNo(primary.parse::<u8>()?)),
    })
}

pub fn print_view(rt: &HostRuntime, view: &View) -> Result<()> {
    let version = view.version.0;
    let members = view.members.hosts();
    match view.primary {
        Some(primary) => {
            println!(rt;
                "    version {version} members {members:?} primary {}",
                primary.0
            )?;
        }
        None => println!(rt; "    version {version} members {members:?}")?,
    }
    Ok(())
}
