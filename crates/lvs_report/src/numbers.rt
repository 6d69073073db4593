//! Numbers as a report spells them: decimal digits without leading zeros.
ghost use Rattle.std.specs.Prelude.{◌≡◌, ◌≤◌, ◌+◌, ◌-◌, ◌*◌, if◌then◌else◌, nat_le, Some, None, IfSome};
ghost use Rattle.std.specs.List.{list_all};
ghost use Rattle.std.specs.Char.{is_ascii_digit};
ghost use Rattle.lvs_model.specs.Decimals.{value_after};
ghost use Rattle.lvs_model.specs.ReportReading.{is_plain, plain_number};

fn are_digits(word: &[u8]) -> bool
    ensures { result ≡ list_all is_ascii_digit word.now }
{
    word.iter().all(|byte| byte.is_ascii_digit())
}

/// Whether there is a digit, and no zero before another one.
fn is_plain(word: &[u8]) -> bool
    ensures { result ≡ is_plain word.now }
{
    match word {
        [] => false,
        [_] => true,
        [first, ..] => *first != b'0',
    }
}

/// The number with one digit more, up to a limit.
fn with_digit(limit: u64, number: u64, digit: u8) -> Option<u64>
    ensures { result ≡ (if nat_le (10 * number + (digit - 48)) limit then Some (10 * number + (digit - 48)) else None) }
{
    let value = u64::from(digit.saturating_sub(b'0'));
    let next = number.checked_mul(10)?.checked_add(value)?;
    if next <= limit { Some(next) } else { None }
}

/// The value of decimal digits, up to a limit.
fn value_within(limit: u64, word: &[u8]) -> Option<u64>
    ensures { result ≡ (if nat_le (value_after 0 word.now) limit then Some (value_after 0 word.now) else None) }
{
    let mut number = 0;
    for digit in word {
        let Some(next) = with_digit(limit, number, *digit) else {
            return None;
        };
        number = next;
    }
    Some(number)
}

/// The number that a word spells, at most `limit`.
pub(crate) fn plain_number(limit: u64, word: &[u8]) -> Option<u64>
    ensures value { result ≡ plain_number limit word.now }
    ensures small { IfSome result (λ number. number ≤ limit) }
{
    if are_digits(word) && is_plain(word) {
        value_within(limit, word)
    } else {
        None
    }
}
