use crate::{
    Flush, Got, Keeper, Kept, MemKeeper, MemSink, MemSource, Put, Schedule, Sink, Source, StdSink,
    StdSource, WholeWrite, add_counts, next_count, write_all,
};
use ft_base::{Bytes, NoMemory};
use std::io;
use std::io::{BufWriter, Write};

fn record_is(keeper: &MemKeeper, index: u64, text: &[u8]) -> bool {
    match keeper.read(index) {
        Some(record) => record.bytes() == text,
        None => false,
    }
}

#[test]
fn a_source_gives_its_bytes_in_pieces(rt: HostRuntime) -> Result<(), NoMemory> {
    let mut source = MemSource::new(rt.alloc(), b"hello", &[2])?;
    let mut into = [0u8; 3];
    assert_eq!(rt; source.read(&mut into), Got::Bytes(3));
    assert_eq!(rt; into.as_slice(), b"hel".as_slice());
    assert_eq!(rt; source.read(&mut into), Got::Failed);
    assert_eq!(rt; source.read(&mut into), Got::Bytes(2));
    assert_eq!(rt; into.as_slice(), b"lol".as_slice());
    assert_eq!(rt; source.read(&mut into), Got::End);
    assert_eq!(rt; source.read(&mut into), Got::End);
    Ok(())
}

#[test]
fn a_sink_fails_where_told_and_past_its_room(rt: HostRuntime) -> Result<(), NoMemory> {
    let mut sink = MemSink::new(rt.alloc(), 5, &[2])?;
    assert_eq!(rt; sink.write(b"abc"), Put::Took(3));
    assert_eq!(rt; sink.write(b"d"), Put::Failed);
    assert_eq!(rt; sink.write(b"def"), Put::Failed);
    assert_eq!(rt; sink.flush(), Flush::Done);
    assert_eq!(rt; sink.write(b"de"), Put::Took(2));
    assert_eq!(rt; sink.bytes(), b"abcde".as_slice());
    Ok(())
}

#[test]
fn a_text_is_written_whole_or_a_fault_is_told(rt: HostRuntime) -> Result<(), NoMemory> {
    let mut sink = MemSink::new(rt.alloc(), 8, &[2])?;
    assert_eq!(rt; write_all(&mut sink, b"abc"), WholeWrite::All);
    assert_eq!(rt; write_all(&mut sink, b"de"), WholeWrite::Failed);
    assert_eq!(rt; write_all(&mut sink, b""), WholeWrite::All);
    assert_eq!(rt; write_all(&mut sink, b"fg"), WholeWrite::All);
    assert_eq!(rt; sink.bytes(), b"abcfg".as_slice());
    Ok(())
}

#[test]
fn a_reader_of_the_system_is_read_to_its_end(rt: HostRuntime) {
    let mut source = StdSource::new(b"hi".as_slice());
    let mut into = [0u8; 4];
    assert_eq!(rt; source.read(&mut into), Got::Bytes(2));
    assert_eq!(rt; into.as_slice(), b"hi\0\0".as_slice());
    assert_eq!(rt; source.read(&mut into), Got::End);
}

#[test]
fn a_text_reaches_standard_output(rt: HostRuntime) {
    let mut sink = StdSink::new(rt.stdout());
    assert_eq!(rt; write_all(&mut sink, b"out\n"), WholeWrite::All);
}

// A device that takes two bytes a call, up to five in all, and then none.
#[derive(Drop)]
struct ShortWriter {
    taken: usize,
}

impl Write for ShortWriter {
    fn write(&mut self, buf: &[u8]) -> io::Result<usize> {
        let left = 5usize.saturating_sub(self.taken);
        let count = buf.len().min(2).min(left);
        self.taken = self.taken.saturating_add(count);
        Ok(count)
    }

    fn flush(&mut self) -> io::Result<()> {
        Ok(())
    }
}

#[test]
fn a_short_write_is_told_as_short(rt: HostRuntime) {
    let mut sink = StdSink::new(ShortWriter { taken: 0 });
    assert_eq!(rt; sink.write(b"abc"), Put::Took(2));
    assert_eq!(rt; write_all(&mut sink, b"cde"), WholeWrite::All);
    assert_eq!(rt; sink.write(b"f"), Put::Failed);
    assert_eq!(rt; write_all(&mut sink, b"f"), WholeWrite::Failed);
}

#[test]
fn what_waits_is_out_after_a_flush(rt: HostRuntime) -> io::Result<()> {
    let mut device = BufWriter::with_capacity(rt.alloc(), 8, Vec::new(rt.alloc()))?;
    assert_eq!(rt;
        write_all(&mut StdSink::new(&mut device), b"abc"),
        WholeWrite::All
    );
    assert!(rt; device.get_ref().is_empty());
    assert_eq!(rt; StdSink::new(&mut device).flush(), Flush::Done);
    assert_eq!(rt; device.get_ref().as_slice(), b"abc".as_slice());
    Ok(())
}

#[test]
fn a_flush_that_fails_is_told(rt: HostRuntime) -> io::Result<()> {
    let device = BufWriter::with_capacity(rt.alloc(), 8, ShortWriter { taken: 0 })?;
    let mut sink = StdSink::new(device);
    assert_eq!(rt; write_all(&mut sink, b"abcdef"), WholeWrite::All);
    assert_eq!(rt; sink.flush(), Flush::Failed);
    Ok(())
}

#[test]
fn a_keeper_fails_where_planned_and_keeps_the_rest(rt: HostRuntime) -> Result<(), NoMemory> {
    let alloc = rt.alloc();
    let mut keeper = MemKeeper::new(alloc, &[2, 4])?;
    keeper.reserve(alloc, 3)?;
    assert_eq!(rt; keeper.append(Bytes::of(alloc, b"a")?), Kept::Done);
    assert_eq!(rt; keeper.append(Bytes::of(alloc, b"b")?), Kept::Failed);
    assert_eq!(rt; keeper.append(Bytes::of(alloc, b"c")?), Kept::Done);
    assert_eq!(rt; keeper.cut(1), Kept::Failed);
    assert_eq!(rt; keeper.count(), 2);
    assert_eq!(rt; keeper.cut(1), Kept::Done);
    assert!(rt; record_is(&keeper, 0, b"c"));
    keeper.fail_next()?;
    keeper.fail_next()?;
    keeper.reserve(alloc, 2)?;
    assert_eq!(rt; keeper.append(Bytes::of(alloc, b"d")?), Kept::Failed);
    assert_eq!(rt; keeper.append(Bytes::of(alloc, b"e")?), Kept::Done);
    assert!(rt; record_is(&keeper, 1, b"e"));
    assert!(rt; keeper.read(2).is_none());
    Ok(())
}

#[test]
fn a_schedule_fails_where_told(rt: HostRuntime) -> Result<(), NoMemory> {
    let mut schedule = Schedule::new(rt.alloc(), &[2])?;
    assert!(rt; !schedule.is_failing());
    schedule.pass();
    assert!(rt; schedule.is_failing());
    schedule.fail();
    schedule.stray();
    assert!(rt; !schedule.is_failing());
    assert_eq!(rt; schedule.faults(), 2);
    assert_eq!(rt; next_count(u64::MAX), u64::MAX);
    assert_eq!(rt; add_counts(u64::MAX, 3), u64::MAX);
    Ok(())
}
