//! The picks fo and ovf: the heaviest of some servers.
ghost use Rattle.std.specs.Prelude.{◌≡◌, ◌<◌, Bool, length, filter, IfSome, position, ◌&&◌, ◌==◌};
ghost use Rattle.lvs_model.specs.MorePicks.{greatest_weight, is_eligible_candidate, has_room, heaviest, pick_fo, pick_ovf};
ghost use Rattle.lvs_sched_more.specs.Takes.{takes};

use lvs_types::Candidate;

/// Which servers are picked from.
#[derive(Clone, Copy)]
enum Among {
    /// All that are eligible.
    Eligible,
    /// Those of them that have at most as many active connections as their weight.
    WithRoom,
}

impl Among {
    fn takes(self, server: &Candidate) -> bool
        ensures { result ≡ takes self server.now }
    {
        match self {
            Among::Eligible => server.eligible,
            Among::WithRoom => server.eligible && server.active <= u64::from(server.weight),
        }
    }

    /// The greatest weight of these servers, 0 where there are none.
    fn greatest_weight(self, servers: &[Candidate]) -> u32
        ensures { result ≡ greatest_weight (filter (takes self) servers.now) }
    {
        let mut greatest = 0;
        for server in servers {
            if self.takes(server) {
                greatest = greatest.max(server.weight);
            }
        }
        greatest
    }

    /// The place of the first of these servers that has the weight.
    fn first_of(self, servers: &[Candidate], weight: u32) -> Option<usize>
        ensures { result ≡ position (λ server. takes self server && (server.weight == weight)) servers.now }
    {
        servers
            .iter()
            .position(|server| self.takes(server) && server.weight == weight)
    }

    /// The place of the heaviest of these servers, the first among equals.
    fn heaviest(self, servers: &[Candidate]) -> Option<usize>
        ensures { result ≡ heaviest (takes self) servers.now }
    {
        self.first_of(servers, self.greatest_weight(servers))
    }
}

/// Weighted failover: the place of the eligible server of greatest weight, the first among equals
/// (ipvsadm(8), fo).
pub fn pick_fo(servers: &[Candidate]) -> Option<usize>
    ensures value { result ≡ pick_fo servers.now }
    ensures within { IfSome result (λ place. place < length servers.now) }
{
    Among::Eligible.heaviest(servers)
}

/// Weighted overflow: the same among the servers whose active connections are at most as many as
/// their weight (ipvsadm(8), ovf).
pub fn pick_ovf(servers: &[Candidate]) -> Option<usize>
    ensures value { result ≡ pick_ovf servers.now }
    ensures within { IfSome result (λ place. place < length servers.now) }
{
    Among::WithRoom.heaviest(servers)
}
