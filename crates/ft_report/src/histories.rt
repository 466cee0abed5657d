//! The lines that were written, in order: for proofs alone.
ghost use Rattle.std.specs.Prelude.{◌≡◌, [], ◌∷◌, ◌++◌};
ghost use Rattle.ft_report.specs.Writing.{line_of};
ghost use Rattle.ft_report.specs.declared.reports.ReportLine.{ReportLine};

use crate::outcomes::ReportOutcome;
use crate::reports::ReportLine;
use ft_base::{Bytes, Decision, HostNo, Name};
use past_events::PastEvents;
use std::marker::Model;
use std::snapshot::Snapshot;

/// A line that was written, by what it was made of.
#[derive(Drop)]
pub(crate) enum WrittenLine {
    Whole(Snapshot<ReportLine>),
    /// What a host made of a request.
    At {
        host: HostNo,
        group: Snapshot<Name>,
        decision: Decision,
    },
    Reply {
        message: u64,
        host: HostNo,
        client: Snapshot<Name>,
        id: u32,
        shown: Snapshot<ReportOutcome>,
    },
    /// What a host wrote on a link.
    Bytes(Snapshot<Bytes>),
}

#[derive(Drop)]
pub(crate) struct Written {
    lines: PastEvents<WrittenLine>,
}

impl Model for Written {
    ghost use Rattle.std.specs.Prelude.{List, map};
    ghost use Rattle.ft_report.specs.Writing.{line_of};
    ghost use Rattle.ft_report.specs.declared.reports.ReportLine.{ReportLine};

    ghost Value = { List ReportLine };

    ghost view = { λ w. map line_of w.lines };
}

impl Written {
    /// No line was written.
    pub(crate) fn new() -> Written
        ensures { result ≡ [] }
    {
        Written {
            lines: PastEvents::new(),
        }
    }

    /// This line was written too, last.
    pub(crate) fn push(&mut self, line: WrittenLine)
        ensures { self.new ≡ self.old ++ line_of line ∷ [] }
    {
        self.lines.push(Snapshot::of(&line));
    }

    /// A reply was written too, last.
    pub(crate) fn push_reply(
        &mut self,
        message: u64,
        host: HostNo,
        client: &Name,
        id: u32,
        shown: &ReportOutcome,
    )
        ensures { self.new ≡ self.old ++ ReportLine.Reply message host client.now id shown.now ∷ [] }
    {
        self.push(WrittenLine::Reply {
            message,
            host,
            client: Snapshot::of(client),
            id,
            shown: Snapshot::of(shown),
        });
    }

    /// Others were written too, after them.
    pub(crate) fn append(&mut self, others: &Written)
        ensures { self.new ≡ self.old ++ others.now }
    {
        self.lines.append(&others.lines);
    }
}
