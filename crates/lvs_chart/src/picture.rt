//! The picture of a report, from its bytes.
ghost use Rattle.std.specs.Prelude.{◌≡◌, ℕ, List, OnOk, Ok, Err};
ghost use Rattle.lvs_types.specs.declared.report.ReportLine.{ReportLine};
ghost use Rattle.lvs_model.specs.ReportReading.{report_of};

use crate::bars::{greatest_total, put_bars};
use crate::connections::{Connections, put_connections};
use crate::gathering::gather;
use crate::legend::{ROW_HEIGHT, put_kinds, put_servers};
use crate::marks::{Mark, put_marks};
use crate::panel::{LEFT, Panel, TimeAxis, put_panel, put_seconds};
use crate::run::{Round, Run, keep_busiest};
use crate::svg::Svg;
use lvs_report::{ReportRefused, read_report};
use lvs_types::{Bytes, NoMemory};
use std::alloc::Global;

/// The upper edges of the panels, the rows of the marks, and where the legend begins.
const ACTIVE_TOP: u32 = 80;

const INACTIVE_TOP: u32 = 260;

const REPLIES_TOP: u32 = 440;

const KINDS_ROW: u32 = 606;

const EDITS_ROW: u32 = 640;

const SWEEPS_ROW: u32 = 658;

const RECORDS_ROW: u32 = 676;

const SERVERS_TOP: u32 = 740;

/// The seconds from the least moment to the greatest one.
fn time_axis(rounds: &[Round]) -> TimeAxis {
    let Some(round) = rounds.first() else {
        return TimeAxis {
            first: 0,
            seconds: 0,
        };
    };
    let (mut first, mut last) = (round.moment, round.moment);
    for round in rounds {
        first = first.min(round.moment);
        last = last.max(round.moment);
    }
    TimeAxis {
        first,
        seconds: last.saturating_sub(first),
    }
}

/// The title: how many rounds and servers the picture shows.
fn put_title(svg: &mut Svg, rounds: usize, servers: usize, shown: usize) -> Result<(), NoMemory> {
    svg.put("<text class=\"title\" x=\"")?;
    svg.put_number(LEFT)?;
    svg.put("\" y=\"36\">Connections and replies: ")?;
    svg.put_number(rounds as u64)?;
    svg.put(" rounds, ")?;
    if shown < servers {
        svg.put("the ")?;
        svg.put_number(shown as u64)?;
        svg.put(" busiest of ")?;
    }
    svg.put_number(servers as u64)?;
    svg.put(" real servers</text>\n")
}

/// The two panels of connections.
fn put_connection_panels(svg: &mut Svg, axis: TimeAxis, run: &Run) -> Result<(), NoMemory> {
    for (shown, title, top) in [
        (Connections::Active, "active connections", ACTIVE_TOP),
        (Connections::Inactive, "inactive connections", INACTIVE_TOP),
    ] {
        let greatest = shown.greatest(&run.servers);
        let panel = Panel {
            title,
            top,
            greatest,
        };
        put_panel(svg, panel)?;
        put_connections(svg, axis, panel, shown, &run.servers)?;
    }
    Ok(())
}

/// The panel of replies, and the rows of the marks below it.
fn put_round_panels(svg: &mut Svg, axis: TimeAxis, rounds: &[Round]) -> Result<(), NoMemory> {
    let panel = Panel {
        title: "replies of each round",
        top: REPLIES_TOP,
        greatest: greatest_total(rounds),
    };
    put_panel(svg, panel)?;
    put_bars(svg, axis, panel, rounds)?;
    put_kinds(svg, KINDS_ROW)?;
    put_marks(svg, axis, EDITS_ROW, Mark::Edited, rounds)?;
    put_marks(svg, axis, SWEEPS_ROW, Mark::Swept, rounds)?;
    put_marks(svg, axis, RECORDS_ROW, Mark::Learnt, rounds)
}

/// The picture of a run.
fn draw(alloc: Global, mut run: Run) -> Result<Svg, NoMemory> {
    let servers = run.servers.len();
    keep_busiest(&mut run.servers)?;
    let shown = run.servers.len();
    let axis = time_axis(&run.rounds);
    // The servers stand two to a row of the legend.
    let legend_height = (shown as u64).div_ceil(2).saturating_mul(ROW_HEIGHT);
    let mut svg = Svg::begin(alloc, u64::from(SERVERS_TOP).saturating_add(legend_height))?;
    put_title(&mut svg, run.rounds.len(), servers, shown)?;
    put_seconds(&mut svg, axis, ACTIVE_TOP, RECORDS_ROW)?;
    put_connection_panels(&mut svg, axis, &run)?;
    put_round_panels(&mut svg, axis, &run.rounds)?;
    put_servers(&mut svg, SERVERS_TOP, &run.servers)?;
    svg.put("</svg>\n")?;
    Ok(svg)
}

/// The picture of a report as the text of an SVG 1.1 document, or the refusal of its reader: the
/// number of the first line outside the grammar of reports, from 1 (this project's profile).
///
/// Nothing is claimed of what the picture shows.
pub fn draw_report(alloc: Global, bytes: &[u8]) -> Result<Bytes, ReportRefused>
    ensures accepted { OnOk result ((lines : List ReportLine) × (report_of bytes.now ≡ Ok lines)) }
    ensures refused { (at : ℕ) → result ≡ Err (ReportRefused.Unreadable at) → report_of bytes.now ≡ Err at }
{
    let lines = read_report(alloc, bytes)?;
    let run = gather(alloc, &lines)?;
    let svg = draw(alloc, run)?;
    Ok(Bytes::from_vec(svg.into_bytes()))
}
