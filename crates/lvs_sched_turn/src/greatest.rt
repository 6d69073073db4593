//! The greatest weight of the eligible candidates.
ghost use Rattle.std.specs.Prelude.{◌≡◌};
ghost use Rattle.lvs_model.specs.RoundRobin.{eligible_weights, greatest};

use lvs_types::Candidate;

/// The greatest weight of an eligible one, and 0 where there is none.
pub(crate) fn greatest_weight(servers: &[Candidate]) -> u32
    ensures { result ≡ greatest (eligible_weights servers.now) }
{
    let mut weight = 0;
    for server in servers {
        if server.eligible {
            weight = weight.max(server.weight);
        }
    }
    weight
}
