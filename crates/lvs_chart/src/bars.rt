//! The replies of each round, one bar a round.
use crate::panel::{PANEL_WIDTH, Panel, TimeAxis};
use crate::replies::{KINDS, ReplyCounts, ReplyKind};
use crate::run::Round;
use crate::svg::Svg;
use lvs_types::NoMemory;

/// The most replies that a round has, at least 1.
pub(crate) fn greatest_total(rounds: &[Round]) -> u64 {
    let mut greatest = 1;
    for round in rounds {
        greatest = round.replies.total().max(greatest);
    }
    greatest
}

/// How wide a bar is, so that the bars of so many rounds have room.
fn bar_width(rounds: usize) -> u64 {
    let room = PANEL_WIDTH / (rounds as u64).max(1);
    (room / 2).clamp(1, 12)
}

/// The replies of the kinds that stand below that one in a bar.
fn below(replies: &ReplyCounts, kind: ReplyKind) -> u64 {
    let mut total = 0u64;
    for lower in KINDS {
        if lower == kind {
            return total;
        }
        total = total.saturating_add(replies.of(lower));
    }
    total
}

/// The parts of the bars that are of one kind.
fn put_kind(
    svg: &mut Svg,
    axis: TimeAxis,
    panel: Panel,
    rounds: &[Round],
    kind: ReplyKind,
) -> Result<(), NoMemory> {
    for round in rounds {
        let count = round.replies.of(kind);
        if count > 0 {
            let base = below(&round.replies, kind);
            let column = axis.column(round.moment);
            svg.move_to(column, panel.row(base))?;
            svg.step_to(column, panel.row(base.saturating_add(count)))?;
        }
    }
    Ok(())
}

/// The bars of all rounds.
pub(crate) fn put_bars(
    svg: &mut Svg,
    axis: TimeAxis,
    panel: Panel,
    rounds: &[Round],
) -> Result<(), NoMemory> {
    for kind in KINDS {
        svg.put("<path class=\"bar ")?;
        svg.put(kind.title())?;
        svg.put("\" stroke-width=\"")?;
        svg.put_number(bar_width(rounds.len()))?;
        svg.put("\" d=\"")?;
        put_kind(svg, axis, panel, rounds, kind)?;
        svg.put("\"/>\n")?;
    }
    Ok(())
}
