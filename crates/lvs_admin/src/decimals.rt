//! Numbers, addresses, ports and masks, as words spell them.
ghost use Rattle.std.specs.Prelude.{◌≡◌, ◌≤◌, ◌<◌, ◌+◌, ◌*◌, ◌^◌, ◌==◌, if◌then◌else◌, nat_le, length, IfSome, Some, None, find};
ghost use Rattle.std.specs.Option.{option_map};
ghost use Rattle.std.specs.List.{position, list_all};
ghost use Rattle.std.specs.Char.{is_ascii_digit};
ghost use Rattle.lvs_model.specs.Decimals.{value_after, is_number, number_of, number_between, cut_at, addr_of, port_of, endpoint_of, is_mask, mask_bits_of, mask_of};

use lvs_model::admin::GivenEndpoint;
use lvs_types::Addr;

/// Whether a word is decimal digits alone, at least one.
pub(crate) fn is_number(word: &[u8]) -> bool
    ensures { result ≡ is_number word.now }
{
    match word {
        [] => false,
        [first, rest @ ..] => first.is_ascii_digit() && are_digits(rest),
    }
}

fn are_digits(word: &[u8]) -> bool
    ensures { result ≡ list_all is_ascii_digit word.now }
{
    word.iter().all(|byte| byte.is_ascii_digit())
}

/// The value of decimal digits, up to a limit.
fn value_within(limit: u32, word: &[u8]) -> Option<u32>
    ensures { result ≡ (if nat_le (value_after 0 word.now) limit then Some (value_after 0 word.now) else None) }
{
    let limit = u64::from(limit);
    let mut number = 0;
    for digit in word {
        number = 10 * number + u64::from(digit.saturating_sub(b'0'));
        if number > limit {
            return None;
        }
    }
    Some(number as u32)
}

/// The number that a word of decimal digits spells: 1 to `places` digits, 0 to `limit`, leading
/// zeros allowed.
pub fn read_number(places: usize, limit: u32, word: &[u8]) -> Option<u32>
    ensures { result ≡ number_of places limit word.now }
{
    if is_number(word) && word.len() <= places {
        value_within(limit, word)
    } else {
        None
    }
}

/// A number of 1 to 10 digits, `least` to `limit`.
pub(crate) fn read_between(least: u32, limit: u32, word: &[u8]) -> Option<u32>
    ensures value { result ≡ number_between least limit word.now }
    ensures small { IfSome result (λ n. n ≤ limit) }
{
    let number = read_number(10, limit, word)?;
    if least <= number { Some(number) } else { None }
}

fn place_of(text: &[u8], byte: u8) -> Option<usize>
    ensures { result ≡ position (λ b. b == byte) text.now }
{
    text.iter().position(|b| *b == byte)
}

/// The text before the first such byte, and the text behind it.
pub(crate) fn cut(text: &[u8], byte: u8) -> Option<(&[u8], &[u8])>
    ensures { option_map (λ p. (p.0.now, p.1.now)) result ≡ cut_at byte text.now }
{
    let at = place_of(text, byte)?;
    Some((&text[..at], &text[at + 1..]))
}

/// One of the four numbers of an address.
fn read_octet(word: &[u8]) -> Option<u32>
    ensures value { result ≡ number_of 3 255 word.now }
    ensures small { IfSome result (λ n. n ≤ 255) }
{
    read_number(3, 255, word)
}

/// ADDR: four numbers of 1 to 3 digits, 0 to 255, joined by dots.
pub fn read_addr(word: &[u8]) -> Option<Addr>
    ensures { result ≡ addr_of word.now }
{
    let (first, rest) = cut(word, b'.')?;
    let a = read_octet(first)?;
    let (second, rest) = cut(rest, b'.')?;
    let b = read_octet(second)?;
    let (third, rest) = cut(rest, b'.')?;
    let c = read_octet(third)?;
    let d = read_octet(rest)?;
    Some(Addr {
        number: 16_777_216 * a + 65_536 * b + 256 * c + d,
    })
}

/// PORT: 1 to 5 digits, 0 to 65,535.
fn read_port(word: &[u8]) -> Option<u16>
    ensures { result ≡ port_of word.now }
{
    let port = read_number(5, 65_535, word)?;
    u16::try_from(port).ok()
}

/// ADDR or ADDR:PORT.
pub(crate) fn read_endpoint(word: &[u8]) -> Option<GivenEndpoint>
    ensures { result ≡ endpoint_of word.now }
{
    match cut(word, b':') {
        None => {
            let addr = read_addr(word)?;
            Some(GivenEndpoint { addr, port: None })
        }
        Some((addr, port)) => {
            let addr = read_addr(addr)?;
            let port = read_port(port)?;
            Some(GivenEndpoint {
                addr,
                port: Some(port),
            })
        }
    }
}

/// The lengths that a mask can have.
const MASK_LENGTHS: [u8; 33] = [
    0, 1, 2, 3, 4, 5, 6, 7, 8, 9, 10, 11, 12, 13, 14, 15, 16, 17, 18, 19, 20, 21, 22, 23, 24, 25,
    26, 27, 28, 29, 30, 31, 32,
];

fn is_mask(number: u32, bits: u8) -> bool
    requires { bits ≤ 32 }
    ensures { result ≡ is_mask number bits }
{
    u64::from(number) + (1 << (32 - bits)) == 1 << 32
}

/// How many ones a mask of ones and then zeros has, 0 to 32.
fn mask_bits(mask: Addr) -> Option<u8>
    ensures { result ≡ mask_bits_of mask }
{
    MASK_LENGTHS
        .iter()
        .copied()
        .find(|bits| is_mask(mask.number, *bits))
}

/// A mask as a word.
pub(crate) fn read_mask(word: &[u8]) -> Option<u8>
    ensures { result ≡ mask_of word.now }
{
    let mask = read_addr(word)?;
    mask_bits(mask)
}
