//! The lines by which a group is shown.
ghost use Rattle.std.specs.Prelude.{◌≡◌, ◌++◌, map, IfOk, OnOk};
ghost use Rattle.ft_base.specs.Machine.{Machine};
ghost use Rattle.group_looks.specs.Looks.{AreFigures};
ghost use Rattle.group_looks.specs.Showing.{figure_line, member_role, role_of, shown_of, standing_by};
ghost use Rattle.group_model.specs.Plain.{Group};

use crate::figures::{Figure, Figures};
use ft_base::{HostNo, Name, NoMemory, Style, View};
use ft_report::{ReportLine, ReportLines, Role, Standing};
use std::alloc::Global;

// What a member is in its group.
fn member_role(style: Style, view: &View, host: HostNo) -> Role
    ensures { result ≡ member_role style view.now host.0 }
{
    match style {
        Style::Active => Role::Active,
        Style::Cold | Style::Warm => {
            if view.is_led_by(host) {
                Role::Primary
            } else {
                Role::Backup
            }
        }
    }
}

// What a host is in a group of this view.
fn role_of(style: Style, view: &View, host: HostNo) -> Role
    ensures { result ≡ role_of style view.now host.0 }
{
    if view.members.has(host) {
        member_role(style, view, host)
    } else {
        Role::Former
    }
}

// How a host stands, by its figure.
fn standing_by(figure: Figure) -> Standing
    ensures { result ≡ standing_by figure }
{
    let Figure {
        host: _,
        up,
        known,
        at,
    } = figure;
    if !up {
        return Standing::Down;
    }
    match at {
        None => Standing::Blank { known },
        Some((position, state)) => Standing::At {
            known,
            position,
            state,
        },
    }
}

fn figure_line(style: Style, view: &View, figure: Figure) -> ReportLine
    ensures { result ≡ figure_line style view.now figure }
{
    let host = figure.host;
    ReportLine::Member {
        host,
        role: role_of(style, view, host),
        standing: standing_by(figure),
    }
}

fn push_lines(
    style: Style,
    view: &View,
    hosts: Vec<Figure>,
    report: &mut ReportLines,
) -> Result<(), NoMemory>
    ensures { OnOk result (report.new ≡ report.old ++ map (figure_line style view.now) hosts.items) }
{
    for figure in hosts {
        report.push(figure_line(style, view, figure))?;
    }
    Ok(())
}

/// The lines of a group of this name and style: its own, and those of the hosts in its figures, in their order.
pub fn show_lines(
    alloc: Global,
    name: &Name,
    style: Style,
    figures: Figures,
) -> Result<ReportLines, NoMemory>
    ensures { (m : Machine) (g : Group) → g.common.style ≡ style → AreFigures m g figures → IfOk result (λ report. report ≡ shown_of name.now m g) }
{
    let Figures {
        view,
        entries,
        mark,
        time,
        hosts,
    } = figures;
    let mut report = ReportLines::new(alloc);
    let group = name.copy(alloc)?;
    report.push(ReportLine::Show {
        group,
        version: view.version,
        entries,
        mark,
        time,
    })?;
    push_lines(style, &view, hosts, &mut report)?;
    Ok(report)
}
