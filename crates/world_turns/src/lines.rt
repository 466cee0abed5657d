//! Lines that are printed.
ghost use Rattle.std.specs.Prelude.{◌≡◌, [], ◌∷◌, IfOk};

use ft_base::NoMemory;
use ft_report::{ReportLine, ReportLines};
use std::alloc::Global;

/// A report of one line.
pub fn one_line(alloc: Global, line: ReportLine) -> Result<ReportLines, NoMemory>
    ensures { IfOk result (λ report. report ≡ line ∷ []) }
{
    let mut report = ReportLines::new(alloc);
    report.push(line)?;
    Ok(report)
}
