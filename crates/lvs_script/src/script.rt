//! Reading a script.
ghost use Rattle.std.specs.Prelude.{◌≡◌, ℕ, IfOk, OnOk, Ok, Err};
ghost use Rattle.lvs_types.specs.declared.script.ScriptCause.{ScriptCause};
ghost use Rattle.lvs_model.specs.Scripts.{take_line, take_lines, script_of};
ghost use Rattle.lvs_model.specs.Lines.{lines_of};

use crate::reader::ScriptReader;
use crate::stop::{ScriptRefused, Stop};
use lvs_lines::{cut_line, without_return};
use lvs_types::Script;
use std::alloc::Global;

/// The line of that number.
fn take_numbered(reader: &mut ScriptReader, number: u64, line: &[u8]) -> Result<(), ScriptRefused>
    ensures ok { OnOk result (take_line line.now reader.old ≡ Ok reader.new) }
    ensures refused { (at : ℕ) (cause : ScriptCause) → result ≡ Err (ScriptRefused.Refused at cause) → (at ≡ number) × (take_line line.now reader.old ≡ Err cause) }
{
    match reader.take_line(line) {
        Ok(()) => Ok(()),
        Err(Stop::Refused(cause)) => Err(ScriptRefused::Refused {
            line: number,
            cause,
        }),
        Err(Stop::NoMemory) => Err(ScriptRefused::NoMemory),
    }
}

/// All lines of a text.
fn take_all(reader: &mut ScriptReader, text: &[u8]) -> Result<(), ScriptRefused>
    ensures ok { OnOk result (take_lines 1 (lines_of text.now) reader.old ≡ Ok reader.new) }
    ensures refused { (at : ℕ) (cause : ScriptCause) → result ≡ Err (ScriptRefused.Refused at cause) → take_lines 1 (lines_of text.now) reader.old ≡ Err (record { line = at; cause = cause }) }
{
    let mut number = 1;
    let mut rest = text;
    while let Some((line, after)) = cut_line(rest) {
        take_numbered(reader, number, without_return(line))?;
        number += 1;
        rest = after;
    }
    if !rest.is_empty() {
        take_numbered(reader, number, rest)?;
    }
    Ok(())
}

/// What a text means as a script, or its first refused line, numbered from 1, with the cause
/// (this project's profile).
pub fn read_script(alloc: Global, bytes: &[u8]) -> Result<Script, ScriptRefused>
    ensures accepted { IfOk result (λ script. script_of bytes.now ≡ Ok script) }
    ensures refused { (at : ℕ) (cause : ScriptCause) → result ≡ Err (ScriptRefused.Refused at cause) → script_of bytes.now ≡ Err (record { line = at; cause = cause }) }
{
    let mut reader = ScriptReader::new(alloc);
    take_all(&mut reader, bytes)?;
    Ok(reader.finish()?)
}
