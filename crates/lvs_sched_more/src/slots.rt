//! Slots: of addresses, free ones, and those that a server has.
ghost use Rattle.std.specs.Prelude.{◌≡◌, ℕ, ◌+◌, ◌<◌, ◌≤◌, length, count_by, is_none, position};
ghost use Rattle.lvs_model.specs.AddressHash.{slot_of};
ghost use Rattle.lvs_model.specs.MorePicks.{is_of, preferred, first_free};

use lvs_types::Addr;

/// How many slots a table has.
pub(crate) const SLOTS: usize = 256;

/// The slot of an address, 0 to 255 (this project's profile).
pub(crate) fn slot(addr: Addr) -> usize
    ensures value { result ≡ slot_of addr }
    ensures within { result < 256 }
{
    (addr.number.wrapping_mul(2_654_435_761) >> 24) as usize
}

/// The slot that a server prefers when it has taken so many (this project's profile).
pub(crate) fn preferred(addr: Addr, taken: usize) -> usize
    requires { taken ≤ 256 }
    ensures value { result ≡ preferred addr taken }
    ensures within { result < 256 }
{
    let skip = 2 * (addr.number % 128) as usize + 1;
    (slot(addr) + taken * skip) % SLOTS
}

/// How many slots the server at the place has.
pub(crate) fn taken_by(slots: &[Option<usize>], place: usize) -> usize
    ensures { result ≡ count_by (is_of place) slots.now }
{
    slots.iter().filter(|slot| **slot == Some(place)).count()
}

fn first_free_of(slots: &[Option<usize>]) -> Option<usize>
    ensures { result ≡ position (λ slot. is_none slot) slots.now }
{
    slots.iter().position(|slot| slot.is_none())
}

/// The first free slot from the start on, going round.
pub(crate) fn first_free(slots: &[Option<usize>], start: usize) -> usize
    requires number { length slots.now ≡ 256 }
    requires start { start < 256 }
    ensures value { result ≡ first_free start slots.now }
    ensures within { result < 256 }
{
    let (before, behind) = slots.split_at(start);
    match first_free_of(behind) {
        Some(steps) => start + steps,
        None => first_free_of(before).unwrap_or(start),
    }
}
