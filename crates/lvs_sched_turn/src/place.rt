//! Where in a list of candidates a look begins and ends.
ghost use Rattle.std.specs.Prelude.{◌≡◌, ◌≤◌, ◌&&◌, nat_le, IfSome, length, drop, take};
ghost use Rattle.std.specs.List.{position};
ghost use Rattle.lvs_model.specs.Same.{dest_eq};
ghost use Rattle.lvs_model.specs.RoundRobin.{IsEligibleAt, placed, after_last, through_last};

use lvs_types::{Candidate, Cursor, DestId};

/// The place after the one that was picked last, and the end where that is nobody.
pub(crate) fn place_after(servers: &[Candidate], cursor: &Cursor) -> usize
    ensures within { result ≤ length servers.now }
    ensures after { drop result (placed servers.now) ≡ after_last servers.now cursor.now }
    ensures through { take result (placed servers.now) ≡ through_last servers.now cursor.now }
{
    match place_of(servers, cursor.last) {
        Some(place) => place + 1,
        None => servers.len(),
    }
}

fn place_of(servers: &[Candidate], id: Option<DestId>) -> Option<usize>
    ensures { result ≡ position (λ c. dest_eq id c.id) servers.now }
{
    servers.iter().position(|server| id == Some(server.id))
}

/// The first eligible one.
pub(crate) fn first_eligible(servers: &[Candidate]) -> Option<usize>
    ensures first { result ≡ position (λ c. c.eligible) servers.now }
    ensures some { IfSome result (λ place. IsEligibleAt servers.now place) }
{
    servers.iter().position(|server| server.eligible)
}

/// The first eligible one of at least that weight.
pub(crate) fn first_of_weight(servers: &[Candidate], least: u32) -> Option<usize>
    ensures first { result ≡ position (λ c. c.eligible && nat_le least c.weight) servers.now }
    ensures some { IfSome result (λ place. IsEligibleAt servers.now place) }
{
    servers
        .iter()
        .position(|server| server.eligible && server.weight >= least)
}
