//! Lines of output that no script prints, and the words of operations that no servant has.
ghost use Rattle.std.specs.Prelude.{◌<◌, ◌^◌, length};

use fault_script::{CallWords, Line, LineFault, call_words, read_line};
use ft_base::{Bytes, Decision, GroupId, HostNo, Name, NoMemory, Par, Signature, Version};
use ft_report::{CallEnd, ReportLine, ReportLines, ReportOutcome, Worth, worth_of};
use giop_messages::Why;
use group_model::ManageFault;
use std::alloc::Global;
use sys_faults::{Completed, SysFault, SysKind};

fn name(alloc: Global, text: &[u8]) -> Result<Name, NoMemory>
    requires { length text.now < 2 ^ 32 }
{
    match Name::of(alloc, text) {
        Ok(name) => Ok(name),
        Err(_) => Err(NoMemory),
    }
}

fn at(alloc: Global, decision: Decision) -> Result<ReportLine, NoMemory> {
    let group = name(alloc, b"bank")?;
    Ok(ReportLine::At {
        host: HostNo(0),
        group,
        decision,
    })
}

fn done(alloc: Global, end: CallEnd) -> Result<ReportLine, NoMemory> {
    let client = name(alloc, b"ann")?;
    Ok(ReportLine::Done {
        client,
        call: 1,
        end,
    })
}

/// A value of this type, as its bytes spell it.
fn valued(alloc: Global, par: Par, form: &[u8]) -> Result<ReportLine, NoMemory>
    requires { length form.now < 2 ^ 32 }
{
    let form = Bytes::of(alloc, form)?;
    let worth = worth_of(alloc, Some(par), &form)?;
    done(alloc, CallEnd::Shown(ReportOutcome::Value(worth)))
}

// Want of memory, arguments that are too long for a line, causes that no message of GIOP 1.2 has, a value that no property
// has.
fn sizes(alloc: Global, lines: &mut ReportLines) -> Result<(), NoMemory> {
    lines.push(ReportLine::Refused(ManageFault::NoMemory))?;
    lines.push(at(alloc, Decision::Long(4097))?)?;
    lines.push(ReportLine::LinkMalformed {
        why: Why::BadBool,
        place: 12,
    })?;
    lines.push(ReportLine::LinkMalformed {
        why: Why::BadOrder,
        place: u32::MAX,
    })?;
    let name = name(alloc, b"org.omg.ft.Factories")?;
    let value = Bytes::of(alloc, "\u{e9}".as_bytes())?;
    lines.push(ReportLine::Property { name, value })
}

const SIZED: &str =
    "refused NO_MEMORY\nat 0 bank long 4097\nlink malformed badbool 12\nlink malformed badorder 4294967295\nproperty org.omg.ft.Factories \u{e9}\n";

// Ends of an invocation that no host brings about.
fn ends(alloc: Global, lines: &mut ReportLines) -> Result<(), NoMemory> {
    lines.push(done(alloc, CallEnd::IdsSpent)?)?;
    let group = name(alloc, b"bank")?;
    let version = Version(2);
    let forward = CallEnd::Shown(ReportOutcome::Forward { group, version });
    lines.push(done(alloc, forward)?)?;
    let id = Bytes::of(alloc, b"IDL:x")?;
    let unknown = CallEnd::Shown(ReportOutcome::System(SysFault {
        kind: SysKind::Unknown(id),
        minor: 7,
        completed: Completed::Yes,
    }));
    lines.push(done(alloc, unknown)?)
}

const ENDED: &[u8] =
    b"done ann 1 system IMP_LIMIT 3 maybe\ndone ann 1 forward bank 2\ndone ann 1 system 49444c3a78 7 yes\n";

// Values that no servant gives: negative ones, the greatest of 32 bits, a text.
fn values(alloc: Global, lines: &mut ReportLines) -> Result<(), NoMemory> {
    let least = CallEnd::Shown(ReportOutcome::Value(Worth::Number(i64::MIN)));
    lines.push(done(alloc, least)?)?;
    lines.push(valued(alloc, Par::I64, b"\xff\xff\xff\xff\xff\xff\xff\xfe")?)?;
    lines.push(valued(alloc, Par::U32, b"\xff\xff\xff\xff")?)?;
    lines.push(valued(alloc, Par::Text, b"\0\0\0\x03ok\0")?)
}

const VALUED: &[u8] =
    b"done ann 1 value -9223372036854775808\ndone ann 1 value -2\ndone ann 1 value 4294967295\ndone ann 1 value 6f6b\n";

#[test]
fn lines_that_no_script_prints(rt: HostRuntime) -> Result<(), NoMemory> {
    let alloc = rt.alloc();
    let mut sized = ReportLines::new(alloc);
    sizes(alloc, &mut sized)?;
    assert!(rt; sized.into_bytes().bytes() == SIZED.as_bytes());
    let mut ended = ReportLines::new(alloc);
    ends(alloc, &mut ended)?;
    assert!(rt; ended.into_bytes().bytes() == ENDED);
    let mut valued = ReportLines::new(alloc);
    values(alloc, &mut valued)?;
    assert!(rt; valued.into_bytes().bytes() == VALUED);
    Ok(())
}

// The words of a call of an operation with this one parameter.
fn said(
    alloc: Global,
    first: Par,
    second: Option<Par>,
    line: &[u8],
) -> Result<CallWords, LineFault> {
    let signature = Signature {
        first: Some(first),
        second,
        gives: None,
    };
    match read_line(alloc, line) {
        Ok(Some(Line::Call { words, .. })) => call_words(alloc, Some(signature), &words),
        _ => Err(LineFault::Syntax),
    }
}

// Lines with words that are no numbers of 32 bits, and with one for a truth value, which no word is.
const REFUSED: [(Par, &[u8]); 3] = [
    (Par::U32, b"call c g op 4294967296"),
    (Par::U32, b"call c g op -1"),
    (Par::Bool, b"call c g op true"),
];

#[test]
fn words_that_no_operation_takes(rt: HostRuntime) -> Result<(), NoMemory> {
    let alloc = rt.alloc();
    let line = b"call c g op 4294967295 1".as_slice();
    match said(alloc, Par::U32, Some(Par::I64), line) {
        Ok(call) => {
            let args = b"\xff\xff\xff\xff\0\0\0\0\0\0\0\0\0\0\0\x01".as_slice();
            assert!(rt; call.args.bytes() == args);
        }
        Err(_) => assert!(rt; false),
    }
    for (par, line) in &REFUSED {
        let refused = said(alloc, *par, None, line).err();
        assert!(rt; refused == Some(LineFault::Syntax));
    }
    Ok(())
}
