//! Marks where edits, sweeps and accepted records fell.
use crate::panel::{LEFT, PANEL_WIDTH, TimeAxis};
use crate::run::Round;
use crate::svg::{Anchor, Svg};
use lvs_types::NoMemory;

/// What a mark says of its round.
#[derive(Clone, Copy)]
pub(crate) enum Mark {
    Edited,
    Swept,
    Learnt,
}

impl Mark {
    /// What stands before its row, and its class in the picture's style.
    fn title(self) -> &'static str {
        match self {
            Mark::Edited => "edits",
            Mark::Swept => "sweeps",
            Mark::Learnt => "records",
        }
    }

    /// Whether a round has it.
    fn is_of(self, round: &Round) -> bool {
        match self {
            Mark::Edited => round.edited,
            Mark::Swept => round.swept,
            Mark::Learnt => round.learnt,
        }
    }
}

/// The row of a mark: a triangle for each round that has it.
pub(crate) fn put_marks(
    svg: &mut Svg,
    axis: TimeAxis,
    row: u32,
    mark: Mark,
    rounds: &[Round],
) -> Result<(), NoMemory> {
    let row = u64::from(row);
    svg.put_line("grid", (LEFT, row), (LEFT + PANEL_WIDTH, row))?;
    svg.put_text("label", Anchor::End, LEFT - 8, row + 2, mark.title())?;
    svg.put("<path class=\"")?;
    svg.put(mark.title())?;
    svg.put("\" d=\"")?;
    for round in rounds {
        if mark.is_of(round) {
            svg.move_to(axis.column(round.moment), row)?;
            svg.put("l-5-10h10z")?;
        }
    }
    svg.put("\"/>\n")
}
