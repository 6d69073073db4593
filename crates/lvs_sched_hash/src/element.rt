//! The sequence of sh, in which each server stands as often as its weight.
ghost use Rattle.std.specs.Prelude.{◌≡◌, ℕ, ◌+◌, ◌%◌, ◌<◌, length, sum_by};
ghost use Rattle.lvs_model.specs.AddressHash.{share};
ghost use Rattle.lvs_sched_hash.specs.Sequence.{IsElement};

use lvs_types::Candidate;

/// How many times a server stands in the sequence: its weight, at least once.
fn share(server: &Candidate) -> u32
    ensures { result ≡ share server.now }
{
    server.weight.max(1)
}

/// An element of the sequence.
#[derive(Clone, Copy)]
pub(crate) struct Element {
    /// The place of its server.
    pub(crate) place: usize,
    /// How many elements that server has from here on, this one included.
    pub(crate) left: u32,
}

impl Element {
    /// The first element.
    pub(crate) fn first(servers: &[Candidate]) -> Self
        requires { 0 < length servers.now }
        ensures { IsElement servers.now 0 result.place result.left }
    {
        Element {
            place: 0,
            left: share(&servers[0]),
        }
    }

    /// The element behind this one; behind the last one comes the first.
    pub(crate) fn next(self, servers: &[Candidate]) -> Self
        requires { (e : ℕ) × IsElement servers.now e self.place self.left }
        ensures { (e : ℕ) → IsElement servers.now e self.place self.left → IsElement servers.now ((e + 1) % sum_by share servers.now) result.place result.left }
    {
        if self.left > 1 {
            return Element {
                place: self.place,
                left: self.left - 1,
            };
        }
        let place = self.place + 1;
        if place == servers.len() {
            return Element::first(servers);
        }
        Element {
            place,
            left: share(&servers[place]),
        }
    }
}
