//! A checksum after a word that it covers has changed.
ghost use Rattle.std.specs.Prelude.{◌≡◌};
ghost use Rattle.lvs_sum.specs.Sums.{folded, update16 as spec_update16, update32 as spec_update32};

use crate::words::carried;

/// The checksum `sum` after a 16-bit word that it covers has changed from `old` to `new` (RFC 1624, equation 3).
pub fn update16(sum: u16, old: u16, new: u16) -> u16
    ensures { result ≡ spec_update16 sum old new }
{
    !carried(u64::from(!sum) + u64::from(!old) + u64::from(new))
}

/// The same for a number of two neighbouring words, an address: first its high word, then its low one.
pub fn update32(sum: u16, old: u32, new: u32) -> u16
    ensures { result ≡ spec_update32 sum old new }
{
    let high = update16(sum, (old >> 16) as u16, (new >> 16) as u16);
    update16(high, (old & 0xffff) as u16, (new & 0xffff) as u16)
}
