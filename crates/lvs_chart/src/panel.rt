//! Where things stand in the picture, in pixels, and the axes of a panel.
ghost use Rattle.std.specs.Prelude.{◌≤◌, ◌+◌};

use crate::scale::{scaled, tick_step};
use crate::svg::{Anchor, Svg};
use lvs_types::NoMemory;

/// The picture's width.
pub(crate) const WIDTH: u64 = 960;

/// The column where the panels begin, and how wide they are.
pub(crate) const LEFT: u64 = 80;

pub(crate) const PANEL_WIDTH: u64 = 850;

/// How high a panel is.
pub(crate) const PANEL_HEIGHT: u64 = 140;

/// The seconds of the run, along the panels.
#[derive(Clone, Copy)]
pub(crate) struct TimeAxis {
    /// The first moment.
    pub(crate) first: u64,
    /// The seconds from it to the last one.
    pub(crate) seconds: u64,
}

impl TimeAxis {
    /// The column of a moment.
    pub(crate) fn column(self, moment: u64) -> u64
        ensures { result ≤ 930 }
    {
        LEFT + scaled(moment.saturating_sub(self.first), self.seconds, PANEL_WIDTH)
    }
}

/// Counts, up a panel.
#[derive(Clone, Copy)]
pub(crate) struct Panel {
    /// What its counts are of.
    pub(crate) title: &'static str,
    /// Its upper edge.
    pub(crate) top: u32,
    /// The count at its upper edge.
    pub(crate) greatest: u64,
}

impl Panel {
    /// The row of a count.
    pub(crate) fn row(self, count: u64) -> u64
        ensures { result ≤ 4294967295 + 140 }
    {
        let up = scaled(count, self.greatest, PANEL_HEIGHT);
        u64::from(self.top) + (PANEL_HEIGHT - up)
    }
}

/// The lines and numbers of the counts, and the panel's title.
pub(crate) fn put_panel(svg: &mut Svg, panel: Panel) -> Result<(), NoMemory> {
    let title_row = u64::from(panel.top.saturating_sub(8));
    svg.put_text("heading", Anchor::Start, LEFT, title_row, panel.title)?;
    let step = tick_step(panel.greatest, 4);
    for mark in 0..=panel.greatest / step {
        let count = mark.saturating_mul(step);
        let row = panel.row(count);
        svg.put_line("grid", (LEFT, row), (LEFT + PANEL_WIDTH, row))?;
        svg.put_label(Anchor::End, LEFT - 8, row + 4, count)?;
    }
    Ok(())
}

/// The marks and numbers of the seconds: thin lines from the first row, numbers below the last one.
pub(crate) fn put_seconds(
    svg: &mut Svg,
    axis: TimeAxis,
    first_row: u32,
    last_row: u32,
) -> Result<(), NoMemory> {
    let (first_row, last_row) = (u64::from(first_row), u64::from(last_row));
    let step = tick_step(axis.seconds, 10);
    for mark in 0..=axis.seconds / step {
        let moment = axis.first.saturating_add(mark.saturating_mul(step));
        let column = axis.column(moment);
        svg.put_line("grid", (column, first_row), (column, last_row))?;
        svg.put_label(Anchor::Middle, column, last_row + 16, moment)?;
    }
    let middle = LEFT + PANEL_WIDTH / 2;
    svg.put_text("label", Anchor::Middle, middle, last_row + 34, "seconds")
}
