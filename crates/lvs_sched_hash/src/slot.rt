//! The slot of an address.
ghost use Rattle.std.specs.Prelude.{◌≡◌, ◌<◌};
ghost use Rattle.lvs_model.specs.AddressHash.{slot_of};

use lvs_types::Addr;

/// How many slots a table has.
pub(crate) const SLOTS: usize = 256;

/// The slot of an address, 0 to 255 (this project's profile).
pub(crate) fn slot(addr: Addr) -> usize
    ensures value { result ≡ slot_of addr }
    ensures within { result < 256 }
{
    (addr.number.wrapping_mul(2_654_435_761) >> 24) as usize
}
