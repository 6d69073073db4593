//! Weighted round robin: servers take turns in rounds of falling weight.
ghost use Rattle.std.specs.Prelude.{◌≡◌, ◌<◌, ◌≤◌, ◌&&◌, nat_le, false, IfSome, IfNone, drop, length, slice_get};
ghost use Rattle.std.specs.List.{find, list_any};
ghost use Rattle.std.specs.Option.{option_map};
ghost use Rattle.lvs_model.specs.RoundRobin.{pick_wrr, IsEligibleAt, IsNoneEligible, placed, offer, offer_turn, next_current_weight, eligible_weights, greatest};
ghost use Rattle.lvs_sched_turn.specs.Places.{IsFound};

use crate::divisor::weight_divisor;
use crate::greatest::greatest_weight;
use crate::place::{first_of_weight, place_after};
use lvs_types::{Candidate, Cursor};

/// The place of the server whose turn it is, from 0, and the cursor that is left; None where no server is eligible.
///
/// The servers after the cursor's are looked at with the present current weight, and then all with the next one, so at most
/// twice the servers: the first eligible one of at least that weight is picked, and the weight is kept (ipvsadm(8), wrr).
pub fn pick_wrr(servers: &[Candidate], cursor: &Cursor) -> Option<(usize, Cursor)>
    ensures pick { result ≡ pick_wrr servers.now cursor.now }
    ensures some { IfSome result (λ turn. IsEligibleAt servers.now turn.0) }
    ensures none { IfNone result (IsNoneEligible servers.now) }
{
    let start = place_after(servers, cursor);
    match next_place(servers, start, cursor.cw) {
        Some(place) => Some(turn(servers, place, cursor.cw)),
        None => pick_in_next_round(servers, next_current_weight(servers, cursor.cw)),
    }
}

/// The first one of all, where none of the present round is left.
fn pick_in_next_round(servers: &[Candidate], weight: u32) -> Option<(usize, Cursor)>
    ensures pick { result ≡ option_map offer_turn (option_map (offer weight) (find (λ p. p.1.eligible && nat_le weight p.1.weight) (placed servers.now))) }
    ensures some { IfSome result (λ turn. IsEligibleAt servers.now turn.0) }
    ensures none { IfNone result (list_any (λ c. c.eligible && nat_le weight c.weight) servers.now ≡ false) }
{
    let place = next_place(servers, 0, weight)?;
    Some(turn(servers, place, weight))
}

/// The first eligible one of at least that weight, from a place on.
fn next_place(servers: &[Candidate], start: usize, weight: u32) -> Option<usize>
    requires { start ≤ length servers.now }
    ensures found { IsFound servers.now (find (λ p. p.1.eligible && nat_le weight p.1.weight) (drop start (placed servers.now))) result }
    ensures some { IfSome result (λ place. IsEligibleAt servers.now place) }
    ensures none { IfNone result (list_any (λ c. c.eligible && nat_le weight c.weight) (drop start servers.now) ≡ false) }
{
    let (_, after) = servers.split_at(start);
    match first_of_weight(after, weight) {
        Some(further) => Some(start + further),
        None => None,
    }
}

fn turn(servers: &[Candidate], place: usize, weight: u32) -> (usize, Cursor)
    requires { place < length servers.now }
    ensures place { result.0 ≡ place }
    ensures pick { Some result ≡ option_map (λ c. offer_turn (record { place = place; server = c; current_weight = weight })) (slice_get servers.now place) }
{
    let last = Some(servers[place].id);
    (place, Cursor { last, cw: weight })
}

/// The current weight of the next round: a step lower, or the greatest one again.
fn next_current_weight(servers: &[Candidate], weight: u32) -> u32
    ensures number { result ≡ next_current_weight (eligible_weights servers.now) weight }
    ensures reached { result ≤ greatest (eligible_weights servers.now) }
{
    let greatest = greatest_weight(servers);
    let next = weight.saturating_sub(weight_divisor(servers));
    if next == 0 || next > greatest {
        greatest
    } else {
        next
    }
}
