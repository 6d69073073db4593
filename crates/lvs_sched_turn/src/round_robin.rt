//! Round robin: servers take turns.
ghost use Rattle.std.specs.Prelude.{◌≡◌, ◌++◌, IfSome, IfNone};
ghost use Rattle.std.specs.List.{find};
ghost use Rattle.lvs_model.specs.RoundRobin.{pick_rr, IsEligibleAt, IsNoneEligible, after_last, through_last};
ghost use Rattle.lvs_sched_turn.specs.Places.{IsFound};

use crate::place::{first_eligible, place_after};
use lvs_types::{Candidate, Cursor};

/// The place of the server whose turn it is, from 0, and the cursor that is left; None where no server is eligible.
///
/// Servers stand in order of addition. The look begins after the cursor's server, or with the first one where no
/// candidate is that, and goes round (ipvsadm(8), rr).
pub fn pick_rr(servers: &[Candidate], cursor: &Cursor) -> Option<(usize, Cursor)>
    ensures pick { result ≡ pick_rr servers.now cursor.now }
    ensures some { IfSome result (λ turn. IsEligibleAt servers.now turn.0) }
    ensures none { IfNone result (IsNoneEligible servers.now) }
{
    let place = next_place(servers, cursor)?;
    let cursor = Cursor {
        last: Some(servers[place].id),
        cw: cursor.cw,
    };
    Some((place, cursor))
}

fn next_place(servers: &[Candidate], cursor: &Cursor) -> Option<usize>
    ensures found { IsFound servers.now (find (λ p. p.1.eligible) (after_last servers.now cursor.now ++ through_last servers.now cursor.now)) result }
    ensures some { IfSome result (λ place. IsEligibleAt servers.now place) }
    ensures none { IfNone result (IsNoneEligible servers.now) }
{
    let start = place_after(servers, cursor);
    let (through, after) = servers.split_at(start);
    match first_eligible(after) {
        Some(further) => Some(start + further),
        None => first_eligible(through),
    }
}
