//! The ones' complement sum of a list of bytes.
ghost use Rattle.std.specs.Prelude.{◌≡◌, ℕ, ◌+◌, ◌<◌, length};
ghost use Rattle.lvs_sum.specs.Sums.{folded, word_sum, fold as spec_fold};

/// A plain sum with the carries past 16 bits added until 16 bits are left (RFC 1071, section 1).
pub(crate) fn carried(sum: u64) -> u16
    ensures { result ≡ folded sum }
{
    if sum == 0 {
        0
    } else {
        ((sum - 1) % 65535 + 1) as u16
    }
}

/// One word more. A carry past 64 bits is added again, since 2^64 and 1 are the same modulo 65535 (RFC 1071, section 2).
fn with_word(sum: u64, word: u16) -> u64
    ensures { (more : ℕ) → folded (result + more) ≡ folded (sum + word + more) }
{
    let (total, carry) = sum.overflowing_add(u64::from(word));
    total + u64::from(carry)
}

/// The word of an odd last byte, which a zero byte follows, or 0 where there is none.
fn last_word(rest: &[u8]) -> u16
    requires { length rest.now < 2 }
    ensures { result ≡ word_sum rest.now }
{
    match rest {
        [high] => u16::from_be_bytes([*high, 0]),
        _ => 0,
    }
}

/// The ones' complement sum of the 16-bit words of `bytes`, the high byte first, an odd last byte being followed by a zero byte (RFC 1071, section 1).
pub fn fold(bytes: &[u8]) -> u16
    ensures { result ≡ spec_fold bytes.now }
{
    let mut sum = 0u64;
    let mut rest = bytes;
    while let [high, low, after @ ..] = rest {
        sum = with_word(sum, u16::from_be_bytes([*high, *low]));
        rest = after;
    }
    carried(with_word(sum, last_word(rest)))
}
