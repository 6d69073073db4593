//! The picks by load.
ghost use Rattle.std.specs.Prelude.{◌≡◌, IfSome, IfNone};
ghost use Rattle.std.specs.List.{position};
ghost use Rattle.lvs_model.specs.LeastLoad.{AreWeighed, is_idle, pick_lc, pick_wlc, pick_sed, pick_nq};
ghost use Rattle.lvs_model.specs.RoundRobin.{IsEligibleAt, IsNoneEligible};

use crate::first_best::first_best;
use crate::order::Order;
use lvs_types::Candidate;

/// Least connections: the place, from 0, of the first eligible server of the least load; None where none is eligible.
///
/// The load is 256 times the active connections plus the inactive ones (ipvsadm(8), lc).
pub fn pick_lc(servers: &[Candidate]) -> Option<usize>
    requires { AreWeighed servers.now }
    ensures pick { result ≡ pick_lc servers.now }
    ensures some { IfSome result (λ place. IsEligibleAt servers.now place) }
    ensures none { IfNone result (IsNoneEligible servers.now) }
{
    first_best(Order::Load, servers)
}

/// Weighted least connections: the place, from 0, of the first eligible server of the least load over weight; None
/// where none is eligible (ipvsadm(8), wlc).
pub fn pick_wlc(servers: &[Candidate]) -> Option<usize>
    requires { AreWeighed servers.now }
    ensures pick { result ≡ pick_wlc servers.now }
    ensures some { IfSome result (λ place. IsEligibleAt servers.now place) }
    ensures none { IfNone result (IsNoneEligible servers.now) }
{
    first_best(Order::LoadOverWeight, servers)
}

/// Shortest expected delay: the place, from 0, of the first eligible server with the fewest active connections, the new
/// one among them, over weight; None where none is eligible (ipvsadm(8), sed).
pub fn pick_sed(servers: &[Candidate]) -> Option<usize>
    requires { AreWeighed servers.now }
    ensures pick { result ≡ pick_sed servers.now }
    ensures some { IfSome result (λ place. IsEligibleAt servers.now place) }
    ensures none { IfNone result (IsNoneEligible servers.now) }
{
    first_best(Order::ExpectedDelay, servers)
}

/// Never queue: the place, from 0, of the first eligible server without active connections, or else sed's pick; None
/// where none is eligible (ipvsadm(8), nq).
pub fn pick_nq(servers: &[Candidate]) -> Option<usize>
    requires { AreWeighed servers.now }
    ensures pick { result ≡ pick_nq servers.now }
    ensures some { IfSome result (λ place. IsEligibleAt servers.now place) }
    ensures none { IfNone result (IsNoneEligible servers.now) }
{
    match first_idle(servers) {
        Some(place) => Some(place),
        None => pick_sed(servers),
    }
}

fn first_idle(servers: &[Candidate]) -> Option<usize>
    ensures first { result ≡ position is_idle servers.now }
    ensures some { IfSome result (λ place. IsEligibleAt servers.now place) }
{
    servers
        .iter()
        .position(|server| server.eligible && server.active == 0)
}
