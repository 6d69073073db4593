//! What the lines and bars stand for.
use crate::connections::put_line_style;
use crate::panel::LEFT;
use crate::replies::KINDS;
use crate::run::Series;
use crate::svg::{Anchor, Svg};
use lvs_types::NoMemory;

/// How far a row of the legend is from the next one.
pub(crate) const ROW_HEIGHT: u64 = 18;

/// The kinds of replies in one row.
pub(crate) fn put_kinds(svg: &mut Svg, row: u32) -> Result<(), NoMemory> {
    let row = u64::from(row);
    let mut column = LEFT;
    for kind in KINDS {
        svg.put("<path class=\"bar ")?;
        svg.put(kind.title())?;
        svg.put("\" stroke-width=\"10\" d=\"")?;
        svg.move_to(column.saturating_add(5), row)?;
        svg.put("v-10\"/>\n")?;
        let beside = column.saturating_add(14);
        svg.put_text("label", Anchor::Start, beside, row, kind.title())?;
        column = column.saturating_add(121);
    }
    Ok(())
}

/// The servers, two to a row.
pub(crate) fn put_servers(svg: &mut Svg, top: u32, servers: &[Series]) -> Result<(), NoMemory> {
    let top = u64::from(top);
    for (place, server) in servers.iter().enumerate() {
        let place_in_order = place as u64;
        let column = LEFT + (place_in_order % 2) * 425;
        let row = top.saturating_add((place_in_order / 2).saturating_mul(ROW_HEIGHT));
        svg.put("<path")?;
        put_line_style(svg, place)?;
        svg.put(" d=\"")?;
        svg.move_to(column, row)?;
        svg.put("h40\"/>\n")?;
        let beside = column.saturating_add(50);
        let text_row = row.saturating_add(4);
        svg.put_text("label", Anchor::Start, beside, text_row, &server.name)?;
    }
    Ok(())
}
