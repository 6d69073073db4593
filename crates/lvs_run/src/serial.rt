//! The commands of one thread: `serial`, `check` and `capture`.
ghost use Rattle.std.specs.Prelude.{◌≡◌, ◌≢◌, ◌≤◌, ◌+◌, ◌↔◌, ◌⊎◌, ℕ, List, [], map, length, Some, Ok, Err, string_bytes};
ghost use Rattle.std.specs.Io.KnownBytes.{Consumes};
ghost use Rattle.lvs_types.specs.Limits.{max_input};
ghost use Rattle.lvs_types.specs.declared.program.ProgramCommand.{ProgramCommand};
ghost use Rattle.lvs_types.specs.declared.status.Status.{Status as StatusSeen};
ghost use Rattle.lvs_outside.specs.Faults.{Rose, AppendsPrefix};
ghost use Rattle.lvs_model.specs.Tasks.{Task, task_of, AreBooksOf};
ghost use Rattle.lvs_run.specs.Words.{asked_of};
ghost use Rattle.lvs_run.specs.Stages.{IsCompleted, IsRefusal};
ghost use Rattle.lvs_run.specs.Answers.{IsGiven, IsCarriedOut, IsCutOff};

use crate::Done;
use crate::commands::perform;
use crate::done::without_rounds;
use crate::input::read_input;
use crate::program_words::asked;
use lvs_outside::{Sink, Source};
use lvs_types::Status;
use std::alloc::Global;

/// Does what the words say with the source, on one thread, and writes the answer to the sink: for
/// `serial` the report of the script's rounds, each when it is done; for `check` the verdict on a
/// report; for `capture` the capture file of the packets that the director sent, each round's when it
/// is done. Other words are refused.
///
/// The words are read first, then the whole source, then the script, then the report or the capture.
/// After a refusal nothing is written and there are no rounds; after a write fault or want of memory a
/// prefix of what is due is written.
pub fn serve_serial<S: Source, K: Sink>(
    alloc: Global,
    words: &[String],
    source: &mut S,
    sink: &mut K,
) -> Done
    ensures headline { IsCompleted result.status → (command : ProgramCommand) × (input : List ℕ) × (task : Task) × IsGiven (asked_of (map string_bytes words.now)) (S.left source.old) (S.left source.new) command input × (task_of command input ≡ Ok task) × IsCarriedOut task (K.written sink.old) (K.written sink.new) result.status result.rounds.items }
    ensures first { result.rounds.items ≢ [] → (command : ProgramCommand) × (input : List ℕ) × (task : Task) × IsGiven (asked_of (map string_bytes words.now)) (S.left source.old) (S.left source.new) command input × (task_of command input ≡ Ok task) × AreBooksOf task result.rounds.items }
    ensures refusal { IsRefusal result.status → (command : ProgramCommand) × (input : List ℕ) × IsGiven (asked_of (map string_bytes words.now)) (S.left source.old) (S.left source.new) command input × (task_of command input ≡ Err result.status) }
    ensures complete { (command : ProgramCommand) (input : List ℕ) (task : Task) → asked_of (map string_bytes words.now) ≡ Ok command → S.left source.old ≡ Some input → length input ≤ max_input → task_of command input ≡ Ok task → (Rose (S.faults source.old) (S.faults source.new) → ⊥) → (Rose (K.faults sink.old) (K.faults sink.new) → ⊥) → (result.status ≡ task.end) ⊎ (result.status ≡ Status.NoMemory) }
    ensures refused_too { (command : ProgramCommand) (input : List ℕ) (refused : StatusSeen) → asked_of (map string_bytes words.now) ≡ Ok command → S.left source.old ≡ Some input → length input ≤ max_input → task_of command input ≡ Err refused → (Rose (S.faults source.old) (S.faults source.new) → ⊥) → (result.status ≡ refused) ⊎ (result.status ≡ Status.NoMemory) }
    ensures write_fault { result.status ≡ Status.WriteFault → (command : ProgramCommand) × (input : List ℕ) × (task : Task) × IsGiven (asked_of (map string_bytes words.now)) (S.left source.old) (S.left source.new) command input × (task_of command input ≡ Ok task) × IsCutOff command task (K.written sink.old) (K.written sink.new) result.rounds.items }
    ensures no_memory { result.status ≡ Status.NoMemory → ((K.written sink.new ≡ K.written sink.old) × (result.rounds.items ≡ [])) ⊎ ((command : ProgramCommand) × (input : List ℕ) × (task : Task) × IsGiven (asked_of (map string_bytes words.now)) (S.left source.old) (S.left source.new) command input × (task_of command input ≡ Ok task) × AppendsPrefix (K.written sink.old) (K.written sink.new) (task.text result.rounds.items)) }
    ensures nothing { (IsCompleted result.status → ⊥) → result.status ≢ Status.WriteFault → result.status ≢ Status.NoMemory → (K.written sink.new ≡ K.written sink.old) × (result.rounds.items ≡ []) }
    ensures words { (at : ℕ) → (result.status ≡ Status.WordsRefused at) ↔ (asked_of (map string_bytes words.now) ≡ Err at) }
    ensures too_long { result.status ≡ Status.ScriptTooLong → (bytes : List ℕ) × (length bytes ≡ max_input + 1) × Consumes (S.left source.old) (S.left source.new) bytes }
    ensures short { result.status ≢ Status.ScriptTooLong → result.status ≢ Status.NoMemory → (bytes : List ℕ) × (length bytes ≤ max_input) × Consumes (S.left source.old) (S.left source.new) bytes }
    ensures limit { (bytes : List ℕ) × (length bytes ≤ max_input + 1) × Consumes (S.left source.old) (S.left source.new) bytes }
    ensures source_rose { result.status ≡ Status.ReadFault → Rose (S.faults source.old) (S.faults source.new) }
    ensures source_kept { result.status ≢ Status.ReadFault → S.faults source.new ≡ S.faults source.old }
    ensures sink_rose { result.status ≡ Status.WriteFault → Rose (K.faults sink.old) (K.faults sink.new) }
    ensures sink_kept { result.status ≢ Status.WriteFault → K.faults sink.new ≡ K.faults sink.old }
{
    let command = match asked(words) {
        Ok(command) => command,
        Err(at) => return without_rounds(alloc, Status::WordsRefused { at }),
    };
    match read_input(alloc, &command, source) {
        Ok(input) => perform(alloc, &command, &input, sink),
        Err(status) => without_rounds(alloc, status),
    }
}
