//! The connections of each server over the run.
use crate::panel::{Panel, TimeAxis};
use crate::run::{Point, Series};
use crate::svg::Svg;
use lvs_types::NoMemory;

/// Which connections a panel shows.
#[derive(Clone, Copy)]
pub(crate) enum Connections {
    Active,
    Inactive,
}

impl Connections {
    /// How many of them a server had.
    fn of(self, point: &Point) -> u64 {
        match self {
            Connections::Active => point.active,
            Connections::Inactive => point.inactive,
        }
    }

    /// The most that any server had, at least 1.
    pub(crate) fn greatest(self, servers: &[Series]) -> u64 {
        let mut greatest = 1;
        for server in servers {
            for point in &server.points {
                greatest = self.of(point).max(greatest);
            }
        }
        greatest
    }
}

/// The colour, the dashes and the width of the line of a server, as attributes: eight colours, then
/// the same with dashes; the first lines are wider, so that those above them don't hide them.
pub(crate) fn put_line_style(svg: &mut Svg, place: usize) -> Result<(), NoMemory> {
    let place = place as u64;
    svg.put(" class=\"server c")?;
    svg.put_number(place % 8)?;
    svg.put("\" stroke-width=\"")?;
    svg.put_number(6 - place.min(4))?;
    let dashes = place / 8;
    if dashes > 0 {
        svg.put("\" stroke-dasharray=\"")?;
        svg.put_number(dashes.saturating_mul(3))?;
        svg.put(" 4")?;
    }
    svg.put("\"")
}

/// The steps of a server: a count stays until the next listing, and a line is broken where a listing
/// lacks the server.
fn put_steps(
    svg: &mut Svg,
    axis: TimeAxis,
    panel: Panel,
    shown: Connections,
    points: &[Point],
) -> Result<(), NoMemory> {
    let mut next_listing = 0;
    for point in points {
        let (column, row) = (axis.column(point.moment), panel.row(shown.of(point)));
        if point.listing == next_listing {
            svg.step_to(column, row)?;
        } else {
            svg.move_to(column, row)?;
            svg.put("h1")?;
        }
        next_listing = point.listing.saturating_add(1);
    }
    Ok(())
}

/// The lines of all servers.
pub(crate) fn put_connections(
    svg: &mut Svg,
    axis: TimeAxis,
    panel: Panel,
    shown: Connections,
    servers: &[Series],
) -> Result<(), NoMemory> {
    for (place, server) in servers.iter().enumerate() {
        svg.put("<path")?;
        put_line_style(svg, place)?;
        svg.put(" d=\"")?;
        put_steps(svg, axis, panel, shown, &server.points)?;
        svg.put("\"/>\n")?;
    }
    Ok(())
}
