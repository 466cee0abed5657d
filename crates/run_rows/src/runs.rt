//! Whole runs, as tables on [`ftc_run`].
ghost use Rattle.std.specs.Prelude.{◌≡◌, ◌<◌};

use ft_base::{NoMemory, Steps};
use ft_outside::{MemSink, MemSource};
use run_top::ftc_run;
use std::alloc::Global;
use std::marker::Brand;
use std::process::Abort;
use std::sync::ledger::{Blank, Ledger};

// The status, the output and the error text of a script, whose reads and writes of these numbers fail.
fn run_over<L: Ledger>(
    alloc: Global,
    words: &[String],
    script: &[u8],
    reads: &[u64],
    writes: &[u64],
    steps: &mut Steps<L>,
) -> Result<(u8, MemSink, MemSink), NoMemory> {
    let mut input = MemSource::new(alloc, script, reads)?;
    let mut out = MemSink::new(alloc, 10_000, writes)?;
    let mut err = MemSink::new(alloc, 1_000, &[])?;
    let status = ftc_run(alloc, words, &mut input, &mut out, &mut err, steps);
    Ok((status, out, err))
}

fn words_of(alloc: Global, texts: &[&str]) -> Result<Vec<String>, NoMemory> {
    let mut words = Vec::new(alloc);
    for text in texts {
        words.push(String::from_str(alloc, text)?)?;
    }
    Ok(words)
}

// A deposit, two links that are cut off, and one that asks for the balance in two fragments.
const LINKS: &[u8] =
    b"hosts 1\ngroup bank account cold 0\nclient ann\ncall ann bank deposit 5\ndeliver 1\ninject 0 47494f50010201002c0000\ninject 0 47494f50010201002c000000\ninject 0 47494f5001020300240000000700000003000000000000000c00000046544f4700000000000000010800000062616c6147494f50010201070c000000070000006e63650000000000\n";

// What each line of `LINKS` that prints anything prints.
const WRITES: [&[u8]; 6] = [
    b"group bank 1\nview bank 1 members 0 primary 0\n",
    b"msg 1 client ann to host 0 request 1\n",
    b"at 0 bank append 0\nmsg 2 host 0 to client ann reply 1 value 5\n",
    b"link malformed cut 11\n",
    b"link malformed cut 12\n",
    b"at 0 bank append 1\nbytes 47494f5001020101140000000700000000000000000000000500000000000000\nlink closed\n",
];

// The output of the first lines of `LINKS`.
fn first_writes(alloc: Global, count: usize) -> Result<Vec<u8>, NoMemory> {
    let mut text = Vec::new(alloc);
    for write in WRITES.iter().take(count) {
        text.extend_from_slice(*write)?;
    }
    Ok(text)
}

const READ_FAULT: &str = "ftc: read fault\n";

const WRITE_FAULT: &str = "ftc: write fault\n";

// Which reads and writes of `LINKS` fail, the status, the error text, and how many of its lines that print are out.
const FAULTS: [(&[u64], &[u64], u8, &str, usize); 8] = [
    (&[1], &[], 4, READ_FAULT, 0),
    (&[2], &[], 4, READ_FAULT, 6),
    (&[], &[1], 5, WRITE_FAULT, 0),
    (&[], &[2], 5, WRITE_FAULT, 1),
    (&[], &[3], 5, WRITE_FAULT, 2),
    (&[], &[4], 5, WRITE_FAULT, 3),
    (&[], &[5], 5, WRITE_FAULT, 4),
    (&[], &[6], 5, WRITE_FAULT, 5),
];

fn each_fault<L: Ledger>(rt: &impl Abort, alloc: Global, blank: Blank) -> Result<(), NoMemory>
    requires name { blank.name ≡ L.name }
    requires parts { blank.parts ≡ L.parts }
    requires some { 0 < blank.parts }
{
    let mut steps = Steps::<L>::new(blank);
    let words = words_of(alloc, &["run"])?;
    for (reads, writes, wanted, told, count) in &FAULTS {
        let (status, out, err) = run_over(
            alloc,
            words.as_slice(),
            LINKS,
            reads,
            writes,
            &mut steps,
        )?;
        let text = first_writes(alloc, *count)?;
        assert_eq!(rt; out.bytes(), text.as_slice());
        assert_eq!(rt; err.bytes(), told.as_bytes());
        assert_eq!(rt; status, *wanted);
    }
    Ok(())
}

#[test]
fn faults_leave_a_prefix_of_the_output(rt: HostRuntime) -> Result<(), NoMemory> {
    each_fault::<Brand>(&rt, rt.alloc(), Blank::new(1))
}

// What one round writes: the counts, and the group behind a takeover.
const ONE_ROUND: &[u8] =
    b"made 1 lines 19 messages 8 entries 2 calls 3\nshow bank view 2 entries 2 mark 0 time 0\nmember 1 primary known 2 at 2 state 000000000000024e\nmember 2 backup known 2 at 0 state 0000000000000000\n";

// Words of the command line, their status, and what they write.
const FORMS: [(&[&str], u8, &[u8]); 9] = [
    (&[], 2, b""),
    (&["run"], 0, b""),
    (&["run", "--make", "1"], 0, ONE_ROUND),
    (&["run", "--make", "0001"], 0, ONE_ROUND),
    (&["run", "--make", "0"], 2, b""),
    (&["run", "--make", "50001"], 2, b""),
    (&["run", "--make", "x"], 2, b""),
    (&["run", "--make"], 2, b""),
    (&["live", "--make", "1"], 2, b""),
];

fn each_form<L: Ledger>(rt: &impl Abort, alloc: Global, blank: Blank) -> Result<(), NoMemory>
    requires name { blank.name ≡ L.name }
    requires parts { blank.parts ≡ L.parts }
    requires some { 0 < blank.parts }
{
    let mut steps = Steps::<L>::new(blank);
    for (texts, wanted, written) in &FORMS {
        let words = words_of(alloc, texts)?;
        let (status, out, _) = run_over(alloc, words.as_slice(), b"", &[], &[], &mut steps)?;
        assert_eq!(rt; out.bytes(), *written);
        assert_eq!(rt; status, *wanted);
    }
    Ok(())
}

#[test]
fn words_have_their_status(rt: HostRuntime) -> Result<(), NoMemory> {
    each_form::<Brand>(&rt, rt.alloc(), Blank::new(1))
}

// Words of the command line, a script, and how often servants are called in its run.
const CALLS: [(&[&str], &str, u64); 10] = [
    (&["run"], "", 0),
    // a request that comes three times
    (
        &["run"],
        "hosts 1\ngroup bank account cold 0\nclient ann\ncall ann bank deposit 5\ndeliver 1\ndeliver 1\ndeliver 1\n",
        1,
    ),
    // a request that can't be written, and is accepted when it comes again
    (
        &["run"],
        "hosts 1\ngroup bank account cold 0\nclient ann\ncall ann bank deposit 5\nlogfail bank\ndeliver 1\ndeliver 1\n",
        1,
    ),
    // the primary stops between its append and the servant, and the next member takes over
    (
        &["run"],
        "hosts 2\ngroup bank account cold 0 1\nclient ann\ncall ann bank deposit 5\ndeliver 1 crash append\nreport bank 0\ndeliver 3\ntimeout ann\ndeliver 4\ndeliver 5\ndeliver 6\n",
        1,
    ),
    // a repeat that comes when its expiration has come, after both hosts have stopped
    (
        &["run"],
        "hosts 2\ngroup bank account cold 0 1\nclient ann\ncall ann bank deposit 5 exp=90\ndeliver 1\ntick 100\ncheckpoint bank\ncrash 0\ncrash 1\nrestart 0\ndeliver 1\n",
        1,
    ),
    // all members leave, and one comes back and catches up
    (
        &["run"],
        "hosts 2\ngroup bank account cold 0 1\nclient ann\ncall ann bank deposit 5\ndeliver 1\ndeliver 2\nreport bank 0\nreport bank 1\ncall ann bank deposit 7\ndeliver 6\ndeliver 7\nadd bank 1\ndeliver 9\ndeliver 8\ndeliver 10\ndeliver 11\n",
        3,
    ),
    // three deposits, of which a checkpoint covers one; and a takeover, which runs the other two before the next request
    (
        &["run"],
        "hosts 2\ngroup bank account cold 0 1\nclient ann\nclient bob\ncall ann bank deposit 5\ndeliver 1\ndeliver 2\ncheckpoint bank\ncall ann bank deposit 6\ndeliver 3\ndeliver 4\ncall ann bank deposit 7\ndeliver 5\ndeliver 6\n",
        3,
    ),
    (
        &["run"],
        "hosts 2\ngroup bank account cold 0 1\nclient ann\nclient bob\ncall ann bank deposit 5\ndeliver 1\ndeliver 2\ncheckpoint bank\ncall ann bank deposit 6\ndeliver 3\ndeliver 4\ncall ann bank deposit 7\ndeliver 5\ndeliver 6\ncrash 0\nreport bank 0\ncall bob bank balance\ndeliver 9\n",
        6,
    ),
    // two orders that come to one of three active members, the later first and again
    (
        &["run"],
        "hosts 3\ngroup bank account active 0 1 2\nclient ann\nclient bob\ncall ann bank deposit 5\ncall bob bank deposit 6\ndeliver 1\ndeliver 2\ndeliver 7\ndeliver 7\ndeliver 4\ndeliver 4\n",
        4,
    ),
    (&["run", "--make", "1"], "", 3),
];

fn each_count<L: Ledger>(rt: &impl Abort, alloc: Global, blank: Blank) -> Result<(), NoMemory>
    requires name { blank.name ≡ L.name }
    requires parts { blank.parts ≡ L.parts }
    requires some { 0 < blank.parts }
{
    let mut steps = Steps::<L>::new(blank);
    for (texts, script, calls) in &CALLS {
        let before = steps.count();
        let words = words_of(alloc, texts)?;
        let (status, _, _) = run_over(
            alloc,
            words.as_slice(),
            script.as_bytes(),
            &[],
            &[],
            &mut steps,
        )?;
        assert_eq!(rt; status, 0);
        assert_eq!(rt; steps.count().checked_sub(before), Some(*calls));
    }
    Ok(())
}

#[test]
fn servant_calls_are_counted(rt: HostRuntime) -> Result<(), NoMemory> {
    each_count::<Brand>(&rt, rt.alloc(), Blank::new(1))
}
