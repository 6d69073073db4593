//! Cutting a line of a report into its parts. Nothing is copied.
ghost use Rattle.std.specs.Prelude.{◌≡◌, ◌<◌, ◌≤◌, ◌+◌, ◌==◌, length, IfSome};
ghost use Rattle.std.specs.List.{position};
ghost use Rattle.std.specs.Option.{option_map};
ghost use Rattle.lvs_model.specs.Decimals.{cut_at};
ghost use Rattle.lvs_model.specs.ReportReading.{behind, number_up_to};

use crate::numbers::plain_number;

fn place_of(byte: u8, text: &[u8]) -> Option<usize>
    ensures { result ≡ position (λ b. b == byte) text.now }
{
    text.iter().position(|b| *b == byte)
}

/// What stands before the first such byte, and what stands behind it.
fn cut_at(byte: u8, text: &[u8]) -> Option<(&[u8], &[u8])>
    ensures { option_map (λ parts. (parts.0.now, parts.1.now)) result ≡ cut_at byte text.now }
{
    let at = place_of(byte, text)?;
    Some((&text[..at], &text[at + 1..]))
}

/// What stands behind the words that a text begins with.
pub(crate) fn behind<'a>(words: &[u8], text: &'a [u8]) -> Option<&'a [u8]>
    ensures { option_map (λ rest. rest.now) result ≡ behind words.now text.now }
{
    text.strip_prefix(words)
}

/// A number up to the next such byte, and what stands behind that byte.
pub(crate) fn number_up_to(byte: u8, limit: u64, text: &[u8]) -> Option<(u64, &[u8])>
    ensures value { option_map (λ parts. (parts.0, parts.1.now)) result ≡ number_up_to byte limit text.now }
    ensures small { IfSome result (λ parts. parts.0 ≤ limit) }
{
    let (word, rest) = cut_at(byte, text)?;
    let number = plain_number(limit, word)?;
    Some((number, rest))
}
