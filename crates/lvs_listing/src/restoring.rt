//! Reading saved tables back.
ghost use Rattle.std.specs.Prelude.{◌≡◌, ℕ, IfOk, OnOk, Ok, Err};
ghost use Rattle.lvs_types.specs.declared.script.WordsCause.{WordsCause};
ghost use Rattle.lvs_admin.specs.declared.refused.WordsRefused.{WordsRefused};
ghost use Rattle.lvs_model.specs.AdminLines.{line_of_words};
ghost use Rattle.lvs_model.specs.Restoring.{command_of_line, saved_line, at_saved_line, restored};
ghost use Rattle.lvs_lines.specs.Texts.{texts};
ghost use Rattle.lvs_listing.specs.Texts.{with_command};

use crate::refused::RestoreRefused;
use lvs_admin::{WordsRefused, read_word_slices};
use lvs_lines::{cut_line, is_readable, is_skipped, without_return, words_of};
use lvs_types::{Command, Line, WordsCause};
use std::alloc::Global;

/// A line's first word is refused.
fn first_word(cause: WordsCause) -> WordsRefused
    ensures { result ≡ WordsRefused.Refused 0 cause }
{
    WordsRefused::Refused { at: 0, cause }
}

/// The edit that words mean.
fn read_edit(alloc: Global, words: &[&[u8]]) -> Result<Command, WordsRefused>
    ensures accepted { IfOk result (λ command. command_of_line (line_of_words (texts words.now)) ≡ Ok command) }
    ensures refused { (at : ℕ) (cause : WordsCause) → result ≡ Err (WordsRefused.Refused at cause) → command_of_line (line_of_words (texts words.now)) ≡ Err (record { at = at; cause = cause }) }
{
    match read_word_slices(alloc, words) {
        Ok(Line::Edit(command)) => Ok(command),
        Ok(Line::Show(_)) => Err(first_word(WordsCause::Extra)),
        Err(refused) => Err(refused),
    }
}

/// The command of a line, or none where the line is skipped.
fn read_line(alloc: Global, line: &[u8]) -> Result<Option<Command>, WordsRefused>
    ensures accepted { IfOk result (λ command. saved_line line.now ≡ Ok command) }
    ensures refused { (at : ℕ) (cause : WordsCause) → result ≡ Err (WordsRefused.Refused at cause) → saved_line line.now ≡ Err (record { at = at; cause = cause }) }
{
    let words = words_of(alloc, line)?;
    if is_skipped(&words) {
        return Ok(None);
    }
    if !is_readable(line) {
        return Err(first_word(WordsCause::UnknownOption));
    }
    Ok(Some(read_edit(alloc, &words)?))
}

/// Adds the command of the line of that number.
fn take_line(
    alloc: Global,
    commands: &mut Vec<Command>,
    number: u64,
    text: &[u8],
) -> Result<(), RestoreRefused>
    ensures ok { OnOk result (with_command commands.old.items (at_saved_line number (saved_line text.now)) ≡ Ok commands.new.items) }
    ensures refused { (line at : ℕ) (cause : WordsCause) → result ≡ Err (RestoreRefused.Refused line at cause) → at_saved_line number (saved_line text.now) ≡ Err (record { line = line; at = at; cause = cause }) }
{
    match read_line(alloc, text) {
        Ok(None) => Ok(()),
        Ok(Some(command)) => Ok(commands.push(command)?),
        Err(WordsRefused::Refused { at, cause }) => Err(RestoreRefused::Refused {
            line: number,
            at,
            cause,
        }),
        Err(WordsRefused::NoMemory) => Err(RestoreRefused::NoMemory),
    }
}

/// The commands of saved tables, in order, or the first refused line: its number, from 1, the
/// number of its first refused word, from 0 after the splitting of `-ab` and `--name=value`, and
/// the cause. Lines and words are cut as in a script, and the same lines are skipped. A line with
/// a byte that a script's line may not hold is refused as an unknown option at word 0, and one
/// that is a listing as extra at word 0 (this project's profile).
pub fn restore(alloc: Global, text: &[u8]) -> Result<Vec<Command>, RestoreRefused>
    ensures accepted { IfOk result (λ commands. restored text.now ≡ Ok commands.items) }
    ensures refused { (line at : ℕ) (cause : WordsCause) → result ≡ Err (RestoreRefused.Refused line at cause) → restored text.now ≡ Err (record { line = line; at = at; cause = cause }) }
{
    let mut commands = Vec::new(alloc);
    let mut number = 1;
    let mut rest = text;
    while let Some((line, after)) = cut_line(rest) {
        take_line(alloc, &mut commands, number, without_return(line))?;
        number += 1;
        rest = after;
    }
    if rest.is_empty() {
        return Ok(commands);
    }
    take_line(alloc, &mut commands, number, rest)?;
    Ok(commands)
}
