//! The call that the program makes.
ghost use Rattle.std.specs.Prelude.{◌≡◌, ◌≢◌, ◌≤◌, ◌+◌, ◌↔◌, ◌⊎◌, ℕ, List, map, length, Some, Ok, Err, IfOk, IfErr, string_bytes};
ghost use Rattle.std.specs.Io.KnownBytes.{Consumes, Appends};
ghost use Rattle.lvs_types.specs.Limits.{max_input};
ghost use Rattle.lvs_types.specs.declared.script.Script.{Script};
ghost use Rattle.lvs_types.specs.declared.status.Status.{Status as StatusSeen};
ghost use Rattle.lvs_outside.specs.Faults.{Rose, AppendsProperPrefix};
ghost use Rattle.lvs_model.specs.Scripts.{script_of};
ghost use Rattle.lvs_tidy.specs.ScriptTexts.{script_text};
ghost use Rattle.lvs_tidy_run.specs.declared.words.Asked.{Asked as AskedSeen};
ghost use Rattle.lvs_tidy_run.specs.Answers.{IsAnswer, IsWritten};
ghost use Rattle.lvs_tidy_run.specs.Asked.{asked_of, CanBeAsked, IsGiven};
ghost use Rattle.lvs_tidy_run.specs.Made.{script_made, AllHaveBytes, IsRefusal, IsRefusedBy};

use crate::given::given_captured;
use crate::input::read_input;
use crate::words::{Asked, read_asked};
use lvs_outside::{Sink, Source, write_all};
use lvs_tidy::print_script;
use lvs_types::{Bytes, Status};
use std::alloc::Global;

/// The text of the script that an input makes, or the status with which the input is refused.
fn text_of(alloc: Global, asked: Asked, input: &[u8]) -> Result<Bytes, Status>
    requires { CanBeAsked asked }
    ensures made { IfOk result (λ text. (script : Script) × (script_made asked input.now ≡ Ok script) × (text ≡ script_text script) × (AllHaveBytes script.rounds → script_of (script_text script) ≡ Ok script)) }
    ensures refused { IfErr result (IsRefusedBy (script_made asked input.now)) }
{
    let script = given_captured(alloc, asked, input)?;
    match print_script(alloc, &script) {
        Ok(text) => Ok(text),
        Err(_) => Err(Status::NoMemory),
    }
}

/// Writes a text whole, or a prefix of it that isn't all.
fn write_text<K: Sink>(sink: &mut K, text: &[u8]) -> Status
    ensures written { IsWritten text.now (K.written sink.old) (K.written sink.new) result }
    ensures rose { result ≡ Status.WriteFault → Rose (K.faults sink.old) (K.faults sink.new) }
    ensures kept { result ≢ Status.WriteFault → K.faults sink.new ≡ K.faults sink.old }
{
    match write_all(sink, text) {
        Ok(()) => Status::Finished,
        Err(_) => Status::WriteFault,
    }
}

/// Writes the text of the script that an input makes.
fn print_made<K: Sink>(alloc: Global, asked: Asked, input: &[u8], sink: &mut K) -> Status
    requires { CanBeAsked asked }
    ensures answer { IsAnswer (script_made asked input.now) (K.written sink.old) (K.written sink.new) result }
    ensures again { result ≡ Status.Finished → (script : Script) → script_made asked input.now ≡ Ok script → AllHaveBytes script.rounds → script_of (script_text script) ≡ Ok script }
    ensures rose { result ≡ Status.WriteFault → Rose (K.faults sink.old) (K.faults sink.new) }
    ensures kept { result ≢ Status.WriteFault → K.faults sink.new ≡ K.faults sink.old }
{
    match text_of(alloc, asked, input) {
        Ok(text) => write_text(sink, text.as_slice()),
        Err(status) => status,
    }
}

/// Reads what `ipvsd capture NET BITS STEP` reads, a script, a line `capture` and a capture file, and
/// writes the script with the rounds of the capture behind it, as text. That text is read as the same
/// script, unless the capture has a packet without a byte, which no script can spell.
///
/// The words are read first, then the whole source, then the script, then the capture; they are
/// refused as `capture` refuses them, the words by their numbers from 0, and nothing is written then.
/// The text is whole before its first byte is written: after want of memory nothing was written, after
/// a write fault a prefix that isn't all.
pub fn serve_script<S: Source, K: Sink>(
    alloc: Global,
    words: &[String],
    source: &mut S,
    sink: &mut K,
) -> Status
    ensures printed { result ≡ Status.Finished → (given : AskedSeen) × (input : List ℕ) × (script : Script) × IsGiven (map string_bytes words.now) (S.left source.old) (S.left source.new) given input × (script_made given input ≡ Ok script) × Appends (K.written sink.old) (K.written sink.new) (script_text script) × (AllHaveBytes script.rounds → script_of (script_text script) ≡ Ok script) }
    ensures refusal { IsRefusal result → (given : AskedSeen) × (input : List ℕ) × IsGiven (map string_bytes words.now) (S.left source.old) (S.left source.new) given input × (script_made given input ≡ Err result) }
    ensures complete { (given : AskedSeen) (input : List ℕ) (script : Script) → asked_of (map string_bytes words.now) ≡ Ok given → S.left source.old ≡ Some input → length input ≤ max_input → script_made given input ≡ Ok script → (Rose (S.faults source.old) (S.faults source.new) → ⊥) → (Rose (K.faults sink.old) (K.faults sink.new) → ⊥) → (result ≡ Status.Finished) ⊎ (result ≡ Status.NoMemory) }
    ensures refused_too { (given : AskedSeen) (input : List ℕ) (refused : StatusSeen) → asked_of (map string_bytes words.now) ≡ Ok given → S.left source.old ≡ Some input → length input ≤ max_input → script_made given input ≡ Err refused → (Rose (S.faults source.old) (S.faults source.new) → ⊥) → (result ≡ refused) ⊎ (result ≡ Status.NoMemory) }
    ensures write_fault { result ≡ Status.WriteFault → (given : AskedSeen) × (input : List ℕ) × (script : Script) × IsGiven (map string_bytes words.now) (S.left source.old) (S.left source.new) given input × (script_made given input ≡ Ok script) × AppendsProperPrefix (K.written sink.old) (K.written sink.new) (script_text script) }
    ensures nothing { result ≢ Status.Finished → result ≢ Status.WriteFault → K.written sink.new ≡ K.written sink.old }
    ensures words { (at : ℕ) → (result ≡ Status.WordsRefused at) ↔ (asked_of (map string_bytes words.now) ≡ Err at) }
    ensures too_long { result ≡ Status.ScriptTooLong → (bytes : List ℕ) × (length bytes ≡ max_input + 1) × Consumes (S.left source.old) (S.left source.new) bytes }
    ensures short { result ≢ Status.ScriptTooLong → result ≢ Status.NoMemory → (bytes : List ℕ) × (length bytes ≤ max_input) × Consumes (S.left source.old) (S.left source.new) bytes }
    ensures limit { (bytes : List ℕ) × (length bytes ≤ max_input + 1) × Consumes (S.left source.old) (S.left source.new) bytes }
    ensures source_rose { result ≡ Status.ReadFault → Rose (S.faults source.old) (S.faults source.new) }
    ensures source_kept { result ≢ Status.ReadFault → S.faults source.new ≡ S.faults source.old }
    ensures sink_rose { result ≡ Status.WriteFault → Rose (K.faults sink.old) (K.faults sink.new) }
    ensures sink_kept { result ≢ Status.WriteFault → K.faults sink.new ≡ K.faults sink.old }
{
    let given = match read_asked(words) {
        Ok(given) => given,
        Err(at) => return Status::WordsRefused { at },
    };
    match read_input(alloc, source) {
        Ok(input) => print_made(alloc, given, &input, sink),
        Err(status) => status,
    }
}
