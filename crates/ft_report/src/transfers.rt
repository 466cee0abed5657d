//! Lines of checkpoints and updates.
ghost use Rattle.std.specs.Prelude.{◌≡◌, ◌++◌, OnOk};
ghost use Rattle.ft_report.specs.Report.{report_text};

use crate::reports::ReportLine;
use ft_base::{HostNo, Name, NoMemory, Tick};
use report_words::Word::{Fixed, Number, Text};
use report_words::push_line;

pub fn checkpoint_line(
    text: &mut Vec<u8>,
    group: &Name,
    host: HostNo,
    position: u32,
    time: Tick,
) -> Result<(), NoMemory>
    ensures { OnOk result (text.new.items ≡ text.old.items ++ report_text (ReportLine.Checkpoint group.now host position time)) }
{
    push_line(
        text,
        &[
            Fixed(b"checkpoint"),
            Text(group.bytes()),
            Fixed(b"host"),
            Number(u64::from(host.0)),
            Fixed(b"position"),
            Number(u64::from(position)),
            Fixed(b"time"),
            Number(time.0),
        ],
    )
}

pub fn updated_line(
    text: &mut Vec<u8>,
    group: &Name,
    host: HostNo,
    base: u32,
    position: u32,
) -> Result<(), NoMemory>
    ensures { OnOk result (text.new.items ≡ text.old.items ++ report_text (ReportLine.Updated group.now host base position)) }
{
    push_line(
        text,
        &[
            Fixed(b"update"),
            Text(group.bytes()),
            Fixed(b"host"),
            Number(u64::from(host.0)),
            Fixed(b"from"),
            Number(u64::from(base)),
            Fixed(b"to"),
            Number(u64::from(position)),
        ],
    )
}
