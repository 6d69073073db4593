//! The greatest common divisor of the weights of the eligible candidates.
ghost use Rattle.std.specs.Prelude.{◌≡◌, true, false};
ghost use Rattle.std.specs.Int.{IsGcd};
ghost use Rattle.lvs_model.specs.RoundRobin.{eligible_weights, greatest_common_divisor};

use lvs_types::Candidate;

/// The greatest common divisor of the weights of the eligible ones, and 0 where there is none.
pub(crate) fn weight_divisor(servers: &[Candidate]) -> u32
    ensures { result ≡ greatest_common_divisor (eligible_weights servers.now) }
{
    let mut divisor = 0;
    for server in servers {
        divisor = with_weight(divisor, server);
    }
    divisor
}

/// The divisor with one more server, where it is eligible.
fn with_weight(divisor: u32, server: &Candidate) -> u32
    ensures eligible { server.now.eligible ≡ true → IsGcd divisor server.now.weight result }
    ensures other { server.now.eligible ≡ false → result ≡ divisor }
{
    if server.eligible {
        greatest_common_divisor(divisor, server.weight)
    } else {
        divisor
    }
}

/// Euclid's algorithm.
fn greatest_common_divisor(first: u32, second: u32) -> u32
    ensures { IsGcd first second result }
{
    let mut divisor = first;
    let mut rest = second;
    while rest != 0 {
        let next = divisor % rest;
        divisor = rest;
        rest = next;
    }
    divisor
}
