//! Lines of what is read of a group.
ghost use Rattle.std.specs.Prelude.{◌≡◌, ◌++◌, OnOk};
ghost use Rattle.ft_report.specs.Report.{report_text};

use crate::parts::{role_bytes, standing_bytes};
use crate::reports::{ReportLine, Role, Standing};
use ft_base::{Bytes, HostNo, Members, Name, NoMemory, Tick, Version};
use report_words::Word::{Fixed, Made, Number, Text};
use report_words::{hosts, push_line};
use std::alloc::Global;

pub fn property_line<'a>(
    text: &mut Vec<u8>,
    alloc: Global,
    name: &'a Name,
    value: &'a Bytes,
) -> Result<(), NoMemory>
    ensures { OnOk result (text.new.items ≡ text.old.items ++ report_text (ReportLine.Property name.now value.now)) }
{
    push_line(
        text,
        &[Fixed(b"property"), Text(name.bytes()), Text(value.bytes())],
    )
}

pub fn show_line(
    text: &mut Vec<u8>,
    alloc: Global,
    group: &Name,
    version: Version,
    entries: u32,
    mark: u32,
    time: Tick,
) -> Result<(), NoMemory>
    ensures { OnOk result (text.new.items ≡ text.old.items ++ report_text (ReportLine.Show group.now version entries mark time)) }
{
    push_line(
        text,
        &[
            Fixed(b"show"),
            Text(group.bytes()),
            Fixed(b"view"),
            Number(u64::from(version.0)),
            Fixed(b"entries"),
            Number(u64::from(entries)),
            Fixed(b"mark"),
            Number(u64::from(mark)),
            Fixed(b"time"),
            Number(time.0),
        ],
    )
}

pub fn member_line(
    text: &mut Vec<u8>,
    alloc: Global,
    host: HostNo,
    role: Role,
    standing: &Standing,
) -> Result<(), NoMemory>
    ensures { OnOk result (text.new.items ≡ text.old.items ++ report_text (ReportLine.Member host role standing.now)) }
{
    let standing = standing_bytes(alloc, standing)?;
    push_line(
        text,
        &[
            Fixed(b"member"),
            Number(u64::from(host.0)),
            Fixed(role_bytes(role)),
            Made(standing.bytes()),
        ],
    )
}

pub fn locations_line(
    text: &mut Vec<u8>,
    alloc: Global,
    group: &Name,
    members: &Members,
) -> Result<(), NoMemory>
    ensures { OnOk result (text.new.items ≡ text.old.items ++ report_text (ReportLine.Locations group.now members.now)) }
{
    let members = hosts(alloc, members)?;
    push_line(
        text,
        &[
            Fixed(b"locations"),
            Text(group.bytes()),
            Made(members.bytes()),
        ],
    )
}

pub fn ref_line<'a>(
    text: &mut Vec<u8>,
    alloc: Global,
    group: &'a Name,
    reference: &'a Bytes,
) -> Result<(), NoMemory>
    ensures { OnOk result (text.new.items ≡ text.old.items ++ report_text (ReportLine.Ref group.now reference.now)) }
{
    push_line(
        text,
        &[Fixed(b"ref"), Text(group.bytes()), Text(reference.bytes())],
    )
}

pub fn member_ref_line<'a>(
    text: &mut Vec<u8>,
    alloc: Global,
    group: &'a Name,
    host: HostNo,
    reference: &'a Bytes,
) -> Result<(), NoMemory>
    ensures { OnOk result (text.new.items ≡ text.old.items ++ report_text (ReportLine.MemberRef group.now host reference.now)) }
{
    push_line(
        text,
        &[
            Fixed(b"member-ref"),
            Text(group.bytes()),
            Number(u64::from(host.0)),
            Text(reference.bytes()),
        ],
    )
}

pub fn no_group_line(text: &mut Vec<u8>, alloc: Global, host: HostNo) -> Result<(), NoMemory>
    ensures { OnOk result (text.new.items ≡ text.old.items ++ report_text (ReportLine.NoGroup host)) }
{
    push_line(
        text,
        &[Fixed(b"at"), Number(u64::from(host.0)), Fixed(b"- nogroup")],
    )
}
