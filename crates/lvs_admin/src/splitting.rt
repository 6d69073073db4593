//! Splitting: `-ab` is `-a -b`, and `--name=value` is `--name value`.
ghost use Rattle.std.specs.Prelude.{◌≡◌, ◌++◌, ◌≤◌, ◌∷◌, [], List, ℕ, map, length, OnOk, IfOk};
ghost use Rattle.std.specs.List.{list_all};
ghost use Rattle.std.specs.Option.{option_map};
ghost use Rattle.std.specs.Char.{is_ascii_alphabetic};
ghost use Rattle.lvs_model.specs.AdminWords.{is_cluster, is_long, assignment_of, split_assignment, letter_word, split_word, split_words};
ghost use Rattle.lvs_admin.specs.Words.{spelled};

use crate::decimals::cut;
use lvs_types::NoMemory;
use std::alloc::Global;
use std::marker::Model;

/// How a word came out of the splitting.
#[derive(Drop)]
enum Spelling<'a> {
    /// A dash and a letter, out of a cluster of letters.
    Letter([u8; 2]),
    /// A word or a part of one, as it is written.
    Text(&'a [u8]),
}

/// A word after the splitting, which contracts see as its bytes.
#[derive(Drop)]
pub(crate) struct Word<'a> {
    spelling: Spelling<'a>,
}

impl<'a> Model for Word<'a> {
    ghost Value = { List ℕ };

    ghost view = { λ w. spelled w.spelling };
}

impl<'a> Word<'a> {
    /// A dash and a letter.
    fn letter(letter: u8) -> Word<'a>
        ensures { result ≡ letter_word letter }
    {
        Word {
            spelling: Spelling::Letter([b'-', letter]),
        }
    }

    /// A word or a part of one.
    fn text(text: &'a [u8]) -> Word<'a>
        ensures { result ≡ text.now }
    {
        Word {
            spelling: Spelling::Text(text),
        }
    }

    /// Its bytes.
    pub(crate) fn as_bytes(&self) -> &[u8]
        ensures { result.now ≡ self.now }
    {
        match &self.spelling {
            Spelling::Letter(pair) => pair,
            Spelling::Text(text) => text,
        }
    }
}

/// Whether a word is one dash and two or more letters.
fn is_cluster(word: &[u8]) -> bool
    ensures { result ≡ is_cluster word.now }
{
    match word {
        [] => false,
        [first, letters @ ..] => *first == b'-' && letters.len() >= 2 && are_letters(letters),
    }
}

fn are_letters(bytes: &[u8]) -> bool
    ensures { result ≡ list_all is_ascii_alphabetic bytes.now }
{
    bytes.iter().all(|byte| byte.is_ascii_alphabetic())
}

/// Whether a word begins with two dashes.
fn is_long(word: &[u8]) -> bool
    ensures { result ≡ is_long word.now }
{
    match word {
        [] => false,
        [_] => false,
        [first, second, ..] => *first == b'-' && *second == b'-',
    }
}

/// The word before the first equals sign, and the word behind it.
fn assignment(word: &[u8]) -> Option<(&[u8], &[u8])>
    ensures { option_map (λ p. (p.0.now, p.1.now)) result ≡ assignment_of word.now }
{
    if is_long(word) { cut(word, b'=') } else { None }
}

/// Adds a word for each letter.
fn push_letters<'a>(words: &mut Vec<Word<'a>>, letters: &[u8]) -> Result<(), NoMemory>
    ensures { OnOk result (words.new.items ≡ words.old.items ++ map letter_word letters.now) }
{
    for letter in letters {
        words.push(Word::letter(*letter))?;
    }
    Ok(())
}

/// Adds a word that is no cluster.
fn push_assignment<'a>(words: &mut Vec<Word<'a>>, word: &'a [u8]) -> Result<(), NoMemory>
    ensures { OnOk result (words.new.items ≡ words.old.items ++ split_assignment word.now (assignment_of word.now)) }
{
    match assignment(word) {
        None => words.push(Word::text(word))?,
        Some((name, value)) => {
            words.push(Word::text(name))?;
            words.push(Word::text(value))?;
        }
    }
    Ok(())
}

/// Adds what a word is split into.
fn push_word<'a>(words: &mut Vec<Word<'a>>, word: &'a [u8]) -> Result<(), NoMemory>
    ensures { OnOk result (words.new.items ≡ words.old.items ++ split_word word.now) }
{
    if is_cluster(word) {
        push_letters(words, &word[1..])
    } else {
        push_assignment(words, word)
    }
}

/// What the words are split into.
pub(crate) fn split_words<'a>(alloc: Global, words: &[&'a [u8]]) -> Result<Vec<Word<'a>>, NoMemory>
    ensures { IfOk result (λ split. split.items ≡ split_words (map (λ word. word.now) words.now)) }
{
    let mut split = Vec::new(alloc);
    for word in words {
        push_word(&mut split, word)?;
    }
    Ok(split)
}
