//! When one server is better than another.
ghost use Rattle.std.specs.Prelude.{◌≡◌, ◌<◌, ◌^◌, ◌+◌, ◌*◌};
ghost use Rattle.lvs_model.specs.LeastLoad.{load};
ghost use Rattle.lvs_sched_load.specs.Orders.{is_better};

use lvs_types::Candidate;

/// What servers are compared by.
#[derive(Clone, Copy)]
pub(crate) enum Order {
    Load,
    LoadOverWeight,
    /// The active connections with the new one, over weight.
    ExpectedDelay,
}

impl Order {
    /// Whether a server is better than another one.
    pub(crate) fn is_better(self, one: &Candidate, other: &Candidate) -> bool
        ensures { result ≡ is_better self one.now other.now }
    {
        match self {
            Order::Load => load(one) < load(other),
            Order::LoadOverWeight => shared(load(one), other.weight)
                < shared(load(other), one.weight),
            Order::ExpectedDelay => shared(delay(one), other.weight)
                < shared(delay(other), one.weight),
        }
    }
}

fn load(server: &Candidate) -> u128
    ensures value { result ≡ load server.now }
    ensures bound { result < 2 ^ 73 }
{
    256 * u128::from(server.active) + u128::from(server.inactive)
}

fn delay(server: &Candidate) -> u128
    ensures value { result ≡ server.now.active + 1 }
    ensures bound { result < 2 ^ 73 }
{
    u128::from(server.active) + 1
}

/// A load times the other server's weight, so that no fraction is needed.
fn shared(load: u128, weight: u32) -> u128
    requires { load < 2 ^ 73 }
    ensures { result ≡ load * weight }
{
    load * u128::from(weight)
}
