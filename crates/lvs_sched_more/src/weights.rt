//! How many slots a server takes in a round.
ghost use Rattle.std.specs.Prelude.{◌≡◌, ℕ, ◌<◌, ◌≤◌, length, slice_index_or};
ghost use Rattle.lvs_model.specs.MorePicks.{total_weight, slots_a_round};

use lvs_types::Candidate;

/// The sum of the weights.
pub(crate) fn total_weight(servers: &[Candidate]) -> u128
    ensures { result ≡ total_weight servers.now }
{
    let mut total = 0;
    for server in servers {
        total += u128::from(server.weight);
    }
    total
}

/// How many slots a server takes in a round, where the weights add up to `total`: 64 in proportion to
/// its weight, at least one; none without a weight (this project's profile).
pub(crate) fn slots_a_round(server: &Candidate, total: u128) -> u128
    requires { server.now.weight ≤ total }
    ensures { result ≡ slots_a_round total server.now }
{
    match server.weight {
        0 => 0,
        weight => (64 * u128::from(weight) / total).max(1),
    }
}
