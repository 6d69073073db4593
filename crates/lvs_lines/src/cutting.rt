//! Cutting a text into lines, and a line into words.
ghost use Rattle.std.specs.Prelude.{◌≡◌, ◌<◌, ◌≤◌, ◌+◌, ◌++◌, ◌∷◌, [], length, filter, IfSome, IfOk, OnOk};
ghost use Rattle.std.specs.List.{position, list_all};
ghost use Rattle.std.specs.Option.{option_map};
ghost use Rattle.lvs_lines.specs.Texts.{texts, texts_in};
ghost use Rattle.lvs_model.specs.Lines.{is_feed, is_blank, without_return, is_full, words_of, cut_by, is_printable, is_readable, is_comment, is_skipped};

use lvs_types::NoMemory;
use std::alloc::Global;

/// Whether a byte is a space or a tab.
fn is_blank(byte: u8) -> bool
    ensures { result ≡ is_blank byte }
{
    byte == b' ' || byte == b'\t'
}

fn place_of_feed(text: &[u8]) -> Option<usize>
    ensures { result ≡ position is_feed text.now }
{
    text.iter().position(|byte| *byte == b'\n')
}

fn place_of_blank(text: &[u8]) -> Option<usize>
    ensures { result ≡ position is_blank text.now }
{
    text.iter().position(|byte| is_blank(*byte))
}

/// What stands before the first line feed, and what stands behind it.
pub fn cut_line(text: &[u8]) -> Option<(&[u8], &[u8])>
    ensures shorter { IfSome result (λ parts. length parts.1.now < length text.now) }
    ensures value { option_map (λ parts. (parts.0.now, parts.1.now)) result ≡ cut_by is_feed text.now }
{
    let at = place_of_feed(text)?;
    Some((&text[..at], &text[at + 1..]))
}

/// What stands before the first blank, and what stands behind it.
fn cut_word(text: &[u8]) -> Option<(&[u8], &[u8])>
    ensures shorter { IfSome result (λ parts. length parts.1.now < length text.now) }
    ensures value { option_map (λ parts. (parts.0.now, parts.1.now)) result ≡ cut_by is_blank text.now }
{
    let at = place_of_blank(text)?;
    Some((&text[..at], &text[at + 1..]))
}

/// A line without the carriage return that ends it.
pub fn without_return(line: &[u8]) -> &[u8]
    ensures { result.now ≡ without_return line.now }
{
    match line {
        [prefix @ .., b'\r'] => prefix,
        _ => line,
    }
}

/// Adds a piece between blanks, where it isn't empty.
fn push_piece<'a>(words: &mut Vec<&'a [u8]>, piece: &'a [u8]) -> Result<(), NoMemory>
    ensures { OnOk result (texts_in words.new ≡ texts_in words.old ++ filter is_full (piece.now ∷ [])) }
{
    if !piece.is_empty() {
        words.push(piece)?;
    }
    Ok(())
}

/// The words of a line.
pub fn words_of(alloc: Global, line: &[u8]) -> Result<Vec<&[u8]>, NoMemory>
    ensures { IfOk result (λ words. texts_in words ≡ words_of line.now) }
{
    let mut words = Vec::new(alloc);
    let mut rest = line;
    while let Some((piece, after)) = cut_word(rest) {
        push_piece(&mut words, piece)?;
        rest = after;
    }
    push_piece(&mut words, rest)?;
    Ok(words)
}

fn is_printable(byte: u8) -> bool
    ensures { result ≡ is_printable byte }
{
    (byte >= 0x20 && byte <= 0x7E) || byte == b'\t'
}

/// Whether a line holds printable bytes and tabs alone.
pub fn is_readable(line: &[u8]) -> bool
    ensures { result ≡ is_readable line.now }
{
    line.iter().all(|byte| is_printable(*byte))
}

fn is_comment(word: &[u8]) -> bool
    ensures { result ≡ is_comment word.now }
{
    match word {
        [] => false,
        [first, ..] => *first == b'#',
    }
}

/// Whether a line has no words, or its first word begins a comment.
pub fn is_skipped(words: &[&[u8]]) -> bool
    ensures { result ≡ is_skipped (texts words.now) }
{
    match words {
        [] => true,
        [first, ..] => is_comment(first),
    }
}
