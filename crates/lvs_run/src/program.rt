//! The call that the program makes.
ghost use Rattle.std.specs.Prelude.{◌≡◌, ◌≢◌, ◌≤◌, ◌+◌, ◌↔◌, ◌⊎◌, ℕ, List, [], map, length, Some, Ok, Err, string_bytes};
ghost use Rattle.std.specs.Io.KnownBytes.{Consumes};
ghost use Rattle.lvs_types.specs.Limits.{max_input};
ghost use Rattle.lvs_types.specs.declared.program.ProgramCommand.{ProgramCommand};
ghost use Rattle.lvs_types.specs.declared.status.Status.{Status as StatusSeen};
ghost use Rattle.lvs_outside.specs.Faults.{Rose, AppendsPrefix};
ghost use Rattle.lvs_model.specs.Tasks.{Task, task_of, AreBooksOf};
ghost use Rattle.lvs_run.specs.Words.{called_of};
ghost use Rattle.lvs_run.specs.Stages.{IsCompleted, IsRefusal};
ghost use Rattle.lvs_run.specs.Answers.{IsGiven, IsCarriedOut, IsCutOff};

use crate::Done;
use crate::done::without_rounds;
use crate::input::read_input;
use crate::program_words::called;
use crate::threaded_commands::perform_threaded;
use lvs_outside::{Gate, Sink, Source};
use lvs_types::Status;
use std::alloc::Global;
use std::sync::Wait;
use std::thread::Threads;

/// Does what the words say with the source, and writes the answer to the sink: what `serve_serial`
/// does, and for `run` the report of the script's rounds, each when it is done, with a thread for each
/// actor; for `demo` the summary of the demonstration's rounds, once they are done. `demo` reads nothing
/// of the source. Other words are refused.
pub fn serve<R: Threads + Wait + Sync, S: Source, K: Sink, G: Gate + Sync>(
    rt: &R,
    alloc: Global,
    words: &[String],
    source: &mut S,
    sink: &mut K,
    gate: &G,
) -> Done
    ensures headline { IsCompleted result.status → (command : ProgramCommand) × (input : List ℕ) × (task : Task) × IsGiven (called_of (map string_bytes words.now)) (S.left source.old) (S.left source.new) command input × (task_of command input ≡ Ok task) × IsCarriedOut task (K.written sink.old) (K.written sink.new) result.status result.rounds.items }
    ensures first { result.rounds.items ≢ [] → (command : ProgramCommand) × (input : List ℕ) × (task : Task) × IsGiven (called_of (map string_bytes words.now)) (S.left source.old) (S.left source.new) command input × (task_of command input ≡ Ok task) × AreBooksOf task result.rounds.items }
    ensures refusal { IsRefusal result.status → (command : ProgramCommand) × (input : List ℕ) × IsGiven (called_of (map string_bytes words.now)) (S.left source.old) (S.left source.new) command input × (task_of command input ≡ Err result.status) }
    ensures complete { (command : ProgramCommand) (input : List ℕ) (task : Task) → called_of (map string_bytes words.now) ≡ Ok command → S.left source.old ≡ Some input → length input ≤ max_input → task_of command input ≡ Ok task → (Rose (S.faults source.old) (S.faults source.new) → ⊥) → (Rose (K.faults sink.old) (K.faults sink.new) → ⊥) → (result.status ≡ task.end) ⊎ (result.status ≡ Status.NoMemory) }
    ensures refused_too { (command : ProgramCommand) (input : List ℕ) (refused : StatusSeen) → called_of (map string_bytes words.now) ≡ Ok command → S.left source.old ≡ Some input → length input ≤ max_input → task_of command input ≡ Err refused → (Rose (S.faults source.old) (S.faults source.new) → ⊥) → (result.status ≡ refused) ⊎ (result.status ≡ Status.NoMemory) }
    ensures write_fault { result.status ≡ Status.WriteFault → (command : ProgramCommand) × (input : List ℕ) × (task : Task) × IsGiven (called_of (map string_bytes words.now)) (S.left source.old) (S.left source.new) command input × (task_of command input ≡ Ok task) × IsCutOff command task (K.written sink.old) (K.written sink.new) result.rounds.items }
    ensures no_memory { result.status ≡ Status.NoMemory → ((K.written sink.new ≡ K.written sink.old) × (result.rounds.items ≡ [])) ⊎ ((command : ProgramCommand) × (input : List ℕ) × (task : Task) × IsGiven (called_of (map string_bytes words.now)) (S.left source.old) (S.left source.new) command input × (task_of command input ≡ Ok task) × AppendsPrefix (K.written sink.old) (K.written sink.new) (task.text result.rounds.items)) }
    ensures nothing { (IsCompleted result.status → ⊥) → result.status ≢ Status.WriteFault → result.status ≢ Status.NoMemory → (K.written sink.new ≡ K.written sink.old) × (result.rounds.items ≡ []) }
    ensures words { (at : ℕ) → (result.status ≡ Status.WordsRefused at) ↔ (called_of (map string_bytes words.now) ≡ Err at) }
    ensures too_long { result.status ≡ Status.ScriptTooLong → (bytes : List ℕ) × (length bytes ≡ max_input + 1) × Consumes (S.left source.old) (S.left source.new) bytes }
    ensures short { result.status ≢ Status.ScriptTooLong → result.status ≢ Status.NoMemory → (bytes : List ℕ) × (length bytes ≤ max_input) × Consumes (S.left source.old) (S.left source.new) bytes }
    ensures limit { (bytes : List ℕ) × (length bytes ≤ max_input + 1) × Consumes (S.left source.old) (S.left source.new) bytes }
    ensures source_rose { result.status ≡ Status.ReadFault → Rose (S.faults source.old) (S.faults source.new) }
    ensures source_kept { result.status ≢ Status.ReadFault → S.faults source.new ≡ S.faults source.old }
    ensures sink_rose { result.status ≡ Status.WriteFault → Rose (K.faults sink.old) (K.faults sink.new) }
    ensures sink_kept { result.status ≢ Status.WriteFault → K.faults sink.new ≡ K.faults sink.old }
{
    let command = match called(words) {
        Ok(command) => command,
        Err(at) => return without_rounds(alloc, Status::WordsRefused { at }),
    };
    match read_input(alloc, &command, source) {
        Ok(input) => perform_threaded(rt, alloc, &command, &input, sink, gate),
        Err(status) => without_rounds(alloc, status),
    }
}
