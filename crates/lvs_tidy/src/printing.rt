//! The text of a script.
ghost use Rattle.std.specs.Prelude.{◌≡◌, ◌++◌, ◌+◌, ◌<◌, ◌^◌, ℕ, List, ◌∷◌, [], map, Ok, IfOk, OnOk};
ghost use Rattle.lvs_model.specs.Scripts.{script_of};
ghost use Rattle.lvs_tidy.specs.ScriptTexts.{line_text, remark_text, at_text, round_lines, rounds_lines, local_lines, with_feeds, script_text};

use crate::lines::put_line;
use crate::words::{put_addr_word, put_number_word, put_word};
use lvs_text::put;
use lvs_types::{Addr, Bytes, NoMemory, Round, Script, ScriptLine};
use std::alloc::Global;

/// Appends the remark before a round.
fn put_remark(out: &mut Vec<u8>, number: u64, moment: u64) -> Result<(), NoMemory>
    ensures { OnOk result (out.new.items ≡ out.old.items ++ with_feeds (remark_text number moment ∷ [])) }
{
    put(out, b"# round")?;
    put_number_word(out, number)?;
    put_word(out, b"at")?;
    put_number_word(out, moment)?;
    put(out, b"\n")
}

/// Appends the line that begins a round.
fn put_at(out: &mut Vec<u8>, moment: u64) -> Result<(), NoMemory>
    ensures { OnOk result (out.new.items ≡ out.old.items ++ with_feeds (at_text moment ∷ [])) }
{
    put(out, b"at")?;
    put_number_word(out, moment)?;
    put(out, b"\n")
}

/// Appends the lines of a round.
fn put_lines(out: &mut Vec<u8>, lines: &[ScriptLine]) -> Result<(), NoMemory>
    ensures { OnOk result (out.new.items ≡ out.old.items ++ with_feeds (map line_text lines.now)) }
{
    for line in lines {
        put_line(out, line)?;
        put(out, b"\n")?;
    }
    Ok(())
}

/// Appends a round.
#[tactic(auto, using(crate::proofs::Spaces::with_feeds_append))]
fn put_round(out: &mut Vec<u8>, number: u64, round: &Round) -> Result<(), NoMemory>
    ensures { OnOk result (out.new.items ≡ out.old.items ++ with_feeds (round_lines number round.now)) }
{
    put_remark(out, number, round.moment)?;
    put_at(out, round.moment)?;
    put_lines(out, round.lines.as_slice())
}

/// Appends rounds, numbered from 0.
fn put_rounds(out: &mut Vec<u8>, rounds: &[Round]) -> Result<(), NoMemory>
    ensures { OnOk result (out.new.items ≡ out.old.items ++ with_feeds (rounds_lines 0 rounds.now)) }
{
    let mut number = 0;
    for round in rounds {
        put_round(out, number, round)?;
        number += 1;
    }
    Ok(())
}

/// Appends the source of tunnels, unless it is 0.0.0.0.
fn put_local(out: &mut Vec<u8>, local: Addr) -> Result<(), NoMemory>
    ensures { OnOk result (out.new.items ≡ out.old.items ++ with_feeds (local_lines local)) }
{
    if local.number == 0 {
        Ok(())
    } else {
        put(out, b"local")?;
        put_addr_word(out, local)?;
        put(out, b"\n")
    }
}

/// The lines of a script, each with its line feed.
#[tactic(auto, using(crate::proofs::Spaces::with_feeds_append))]
fn script_bytes(alloc: Global, script: &Script) -> Result<Bytes, NoMemory>
    ensures { IfOk result (λ text. text ≡ script_text script.now) }
{
    let mut out = Vec::new(alloc);
    put_local(&mut out, script.local)?;
    put_rounds(&mut out, script.rounds.as_slice())?;
    Ok(Bytes::from_vec(out))
}

/// The text of a script: one spelling for each line, one blank between words, and a remark before
/// each round with its number and moment (this project's profile). What is printed of a script that
/// was read is read again as the same script.
pub fn print_script(alloc: Global, script: &Script) -> Result<Bytes, NoMemory>
    ensures text { IfOk result (λ text. text ≡ script_text script.now) }
    ensures read { (given : List ℕ) → script_of given ≡ Ok script.now → IfOk result (λ text. script_of text ≡ Ok script.now) }
{
    script_bytes(alloc, script)
}
