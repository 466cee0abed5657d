use crate::{LiveWords, read_live};
use ft_base::{HostNo, NoMemory, Style};
use std::alloc::Global;

fn words_of(alloc: Global, line: &str) -> Result<Vec<String>, NoMemory> {
    let mut words = Vec::new(alloc);
    for word in line.split(' ') {
        words.push(String::from_str(alloc, word)?)?;
    }
    Ok(words)
}

fn is_read_as(alloc: Global, line: &str, wanted: Option<LiveWords>) -> Result<bool, NoMemory> {
    let words = words_of(alloc, line)?;
    Ok(read_live(alloc, &words)? == wanted)
}

#[test]
fn reads_what_is_asked_for(rt: HostRuntime) -> Result<(), NoMemory> {
    let alloc = rt.alloc();
    let small = LiveWords {
        hosts: 2,
        clients: 3,
        calls: 40,
        style: Style::Warm,
        kill: None,
        after: 1,
    };
    let large = LiveWords {
        hosts: 16,
        clients: 64,
        calls: 1000,
        style: Style::Active,
        kill: Some(HostNo(15)),
        after: 64_000,
    };
    for (line, wanted) in [
        (
            "--hosts 2 --clients=3 --calls 040 --style warm",
            Some(small),
        ),
        (
            "--after=64000 --kill 15 --style=active --calls 1000 --clients 64 --hosts 16",
            Some(large),
        ),
        ("--hosts 2 --clients 3 --calls 40", None),
        ("--hosts 2 --clients 3 --calls 40 --style warm --", None),
        (
            "--hosts 2 --clients 3 --calls 40 --style warm --kill 2",
            None,
        ),
        (
            "--hosts 2 --clients 3 --calls 40 --style warm --hosts 2",
            None,
        ),
        ("--hosts 2 --clients 3 --calls +40 --style warm", None),
        ("--hosts 2 --clients 3 --calls 40 --style warm --help", None),
    ] {
        assert!(rt; is_read_as(alloc, line, wanted)?, "{line}");
    }
    Ok(())
}
