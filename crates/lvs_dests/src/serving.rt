//! The first server of a list that takes the connections to an address and a port.
ghost use Rattle.std.specs.Prelude.{◌≡◌, Some};
ghost use Rattle.std.specs.Option.{option_copied};
ghost use Rattle.lvs_dests.specs.Pool.{IsWhole, rows_of};
ghost use Rattle.lvs_dests.specs.Serving.{serving_id, serving_row as serving_by, first_serving as first_by};

use crate::pool::Pool;
use crate::row;
use lvs_types::{Addr, Candidate, Dest, DestId, DestRow};

/// The server of the id, where it does.
fn serving_at(pool: &Pool, id: DestId, daddr: Addr, dport: u16, vport: u16) -> Option<&Dest>
    requires { IsWhole pool.now }
    ensures { option_copied result ≡ serving_id daddr dport vport (rows_of pool.now) id }
{
    match pool.get(id) {
        Some(row) => serving_row(row, daddr, dport, vport),
        None => None,
    }
}

fn serving_row(row: &DestRow, daddr: Addr, dport: u16, vport: u16) -> Option<&Dest>
    ensures { option_copied result ≡ serving_by daddr dport vport (Some row.now) }
{
    if row::serves(row, daddr, dport, vport) {
        Some(&row.dest)
    } else {
        None
    }
}

/// The first one of these.
pub(crate) fn first_serving<'a>(
    pool: &'a Pool,
    candidates: &[Candidate],
    daddr: Addr,
    dport: u16,
    vport: u16,
) -> Option<&'a Dest>
    requires { IsWhole pool.now }
    ensures { option_copied result ≡ first_by daddr dport vport (rows_of pool.now) candidates.now }
{
    for candidate in candidates {
        if let Some(dest) = serving_at(pool, candidate.id, daddr, dport, vport) {
            return Some(dest);
        }
    }
    None
}
