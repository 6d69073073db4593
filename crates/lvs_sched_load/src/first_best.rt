//! The first eligible server such that no eligible one is better.
ghost use Rattle.std.specs.Prelude.{◌≡◌, ◌+◌, ◌<◌, IfSome, IfNone, length};
ghost use Rattle.lvs_model.specs.LeastLoad.{AreWeighed, first_best};
ghost use Rattle.lvs_model.specs.RoundRobin.{IsEligibleAt, IsNoneEligible};
ghost use Rattle.lvs_sched_load.specs.Best.{IsBest};
ghost use Rattle.lvs_sched_load.specs.Orders.{is_better};

use crate::order::Order;
use lvs_types::Candidate;

/// Its place, from 0; None where no server is eligible.
pub(crate) fn first_best(order: Order, servers: &[Candidate]) -> Option<usize>
    requires { AreWeighed servers.now }
    ensures pick { result ≡ first_best (is_better order) servers.now }
    ensures some { IfSome result (λ place. IsEligibleAt servers.now place) }
    ensures none { IfNone result (IsNoneEligible servers.now) }
{
    let mut best = None;
    for place in 0..servers.len() {
        best = better_place(order, servers, best, place);
    }
    best
}

/// The best of the servers up to a place, from the best of those before it.
fn better_place(
    order: Order,
    servers: &[Candidate],
    best: Option<usize>,
    place: usize,
) -> Option<usize>
    requires weighed { AreWeighed servers.now }
    requires place { place < length servers.now }
    requires best { IsBest (is_better order) servers.now place best }
    ensures { IsBest (is_better order) servers.now (place + 1) result }
{
    let server = &servers[place];
    if !server.eligible {
        return best;
    }
    match best {
        Some(so_far) if !order.is_better(server, &servers[so_far]) => best,
        _ => Some(place),
    }
}
