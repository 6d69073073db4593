//! An input of two parts, cut at the first line that is a given word.
ghost use Rattle.std.specs.Prelude.{◌≡◌, ◌≤◌, ◌-◌, [], length, take, bytes_eq};
ghost use Rattle.lvs_model.specs.Lines.{without_return};
ghost use Rattle.lvs_model.specs.Inputs.{parts_of};

use lvs_lines::{cut_line, without_return};

/// The two parts of an input, without the line that cuts them.
#[derive(Clone, Copy)]
pub(crate) struct Parts<'a> {
    pub(crate) first: &'a [u8],
    pub(crate) second: &'a [u8],
}

fn is_same(text: &[u8], word: &[u8]) -> bool
    ensures { result ≡ bytes_eq text.now word.now }
{
    text == word
}

/// Whether a line is the word, and holds nothing more.
fn is_line(line: &[u8], word: &[u8]) -> bool
    ensures { result ≡ bytes_eq (without_return line.now) word.now }
{
    is_same(without_return(line), word)
}

/// What stands before the rest of an input.
fn front_of<'a>(input: &'a [u8], rest: &[u8]) -> &'a [u8]
    requires { length rest.now ≤ length input.now }
    ensures { result.now ≡ take (length input.now - length rest.now) input.now }
{
    &input[..input.len() - rest.len()]
}

/// What stands behind the end of an input.
fn nothing_behind(input: &[u8]) -> &[u8]
    ensures { result.now ≡ [] }
{
    &input[input.len()..]
}

/// The parts of an input, cut at the first line that is the word; where no line is, all of the input
/// is the first part. Nothing is copied.
pub(crate) fn two_parts<'a>(word: &[u8], input: &'a [u8]) -> Parts<'a>
    ensures first { result.first.now ≡ (parts_of word.now input.now).first }
    ensures second { result.second.now ≡ (parts_of word.now input.now).second }
{
    let mut rest = input;
    while let Some((line, after)) = cut_line(rest) {
        if is_line(line, word) {
            return Parts {
                first: front_of(input, rest),
                second: after,
            };
        }
        rest = after;
    }
    if is_same(rest, word) {
        return Parts {
            first: front_of(input, rest),
            second: nothing_behind(input),
        };
    }
    Parts {
        first: input,
        second: nothing_behind(input),
    }
}
