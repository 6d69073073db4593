//! The words of a line of ipvsadm(8).
ghost use Rattle.std.specs.Prelude.{◌≡◌, ℕ, map, string_bytes, length, IfOk, Ok, Err};
ghost use Rattle.lvs_types.specs.declared.script.WordsCause.{WordsCause};
ghost use Rattle.lvs_types.specs.declared.script.WordsCause.TheVariants as cause;
ghost use Rattle.lvs_model.specs.Refusals.{needed};
ghost use Rattle.lvs_model.specs.AdminTables.{command_of};
ghost use Rattle.lvs_model.specs.AdminWords.{take_words, take_all};
ghost use Rattle.lvs_model.specs.AdminLines.{line_of_split, line_of_words};
ghost use Rattle.lvs_admin.specs.Answers.{read_or_refused};

use crate::line::{line_of, settle};
use crate::reader::Reader;
use crate::refused::{WordsRefused, bad};
use crate::splitting::{Word, split_words};
use crate::tables::command_of;
use lvs_model::admin::{BadWord, CommandName, WordsRead};
use lvs_types::{Line, NoMemory, WordsCause};
use std::alloc::Global;

/// The command that the first word names.
fn read_command(word: &[u8]) -> Result<CommandName, BadWord>
    ensures { result ≡ needed 0 cause.UnknownOption (command_of word.now) }
{
    command_of(word).ok_or(bad(0, WordsCause::UnknownOption))
}

/// The words after the command, from left to right; the first that is refused counts.
fn read_options(reader: &mut Reader, words: &[Word]) -> Result<(), BadWord>
    ensures { read_or_refused result reader.new.read ≡ take_words 1 words.now reader.old.read }
{
    for (index, word) in words.iter().enumerate() {
        reader.take_word(index + 1, word.as_bytes())?;
    }
    Ok(())
}

/// All words, from left to right.
fn read_all(words: &[Word]) -> Result<WordsRead, BadWord>
    ensures { result ≡ take_all words.now }
{
    match words {
        [] => Err(bad(0, WordsCause::Missing)),
        [first, rest @ ..] => {
            let mut reader = Reader::new(read_command(first.as_bytes())?);
            read_options(&mut reader, rest)?;
            Ok(reader.read)
        }
    }
}

/// The line of words that were split.
fn read_split(words: &[Word]) -> Result<Line, BadWord>
    ensures { result ≡ line_of_split words.now }
{
    let read = read_all(words)?;
    settle(words.len(), &read)?;
    line_of(words.len(), &read)
}

/// What a list of words means, as slices of the input: the line, or the first refused word.
/// Words are numbered from 0 after the splitting of `-ab` and `--name=value` (ipvsadm(8); the
/// order of the refusals is this project's profile).
pub fn read_word_slices(alloc: Global, words: &[&[u8]]) -> Result<Line, WordsRefused>
    ensures accepted { IfOk result (λ line. line_of_words (map (λ word. word.now) words.now) ≡ Ok line) }
    ensures refused { (at : ℕ) (cause : WordsCause) → result ≡ Err (WordsRefused.Refused at cause) → line_of_words (map (λ word. word.now) words.now) ≡ Err (record { at = at; cause = cause }) }
{
    let split = split_words(alloc, words)?;
    match read_split(&split) {
        Ok(line) => Ok(line),
        Err(word) => Err(WordsRefused::Refused {
            at: word.at,
            cause: word.cause,
        }),
    }
}

/// The bytes of each word.
fn slices_of(alloc: Global, words: &[String]) -> Result<Vec<&[u8]>, NoMemory>
    ensures { IfOk result (λ slices. map (λ word. word.now) slices.items ≡ map string_bytes words.now) }
{
    let mut slices = Vec::new(alloc);
    for word in words {
        slices.push(word.as_bytes())?;
    }
    Ok(slices)
}

/// What a list of words means: the line, or the first refused word with its number, from 0 after
/// the splitting of `-ab` and `--name=value` (ipvsadm(8); the order of the refusals is this
/// project's profile).
pub fn read_words(alloc: Global, words: &[String]) -> Result<Line, WordsRefused>
    ensures accepted { IfOk result (λ line. line_of_words (map string_bytes words.now) ≡ Ok line) }
    ensures refused { (at : ℕ) (cause : WordsCause) → result ≡ Err (WordsRefused.Refused at cause) → line_of_words (map string_bytes words.now) ≡ Err (record { at = at; cause = cause }) }
{
    let slices = slices_of(alloc, words)?;
    read_word_slices(alloc, &slices)
}
