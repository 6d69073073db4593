//! The call that the program makes: `serve` over a reader and a writer of std.
ghost use Rattle.std.specs.Prelude.{◌≡◌, ◌≢◌, ◌<◌, ◌≤◌, ◌+◌, ◌↔◌, ◌⊎◌, ℕ, List, [], map, length, Some, Ok, Err, string_bytes};
ghost use Rattle.std.specs.Io.KnownBytes.{Consumes};
ghost use Rattle.lvs_types.specs.Limits.{max_input};
ghost use Rattle.lvs_types.specs.declared.program.ProgramCommand.{ProgramCommand};
ghost use Rattle.lvs_types.specs.declared.status.Status.{Status as StatusSeen};
ghost use Rattle.lvs_outside.specs.Faults.{AppendsPrefix};
ghost use Rattle.lvs_outside.specs.Streams.{Holds};
ghost use Rattle.lvs_model.specs.Tasks.{Task, task_of, AreBooksOf};
ghost use Rattle.lvs_run.specs.Words.{called_of};
ghost use Rattle.lvs_run.specs.Stages.{IsCompleted, IsRefusal};
ghost use Rattle.lvs_run.specs.Answers.{IsGiven, IsCarriedOut, IsCutOff};

use crate::{Done, serve};
use lvs_outside::{Gate, ReadSource, WriteSink};
use lvs_types::Status;
use std::alloc::Global;
use std::io::{Read, Write};
use std::sync::Wait;
use std::thread::Threads;

/// What a run over streams leaves.
#[derive(Drop)]
pub struct Served<I: Read, O: Write> {
    /// What the call did.
    pub done: Done,
    /// The reader with what it has left, and how often it failed in the call.
    pub source: ReadSource<I>,
    /// The writer with what it was handed, what of that was acknowledged, and how often the sink
    /// failed in the call.
    pub sink: WriteSink<O>,
}

/// Does what the words say with the bytes of the reader, and writes the answer to the writer, as
/// far as std's reader and writer tell what they give and take.
pub fn serve_streams<R: Threads + Wait + Sync, I: Read, O: Write, G: Gate + Sync>(
    rt: &R,
    alloc: Global,
    words: &[String],
    reader: I,
    writer: O,
    gate: &G,
) -> Served<I, O>
    ensures headline { IsCompleted result.done.status → (command : ProgramCommand) × (input : List ℕ) × (task : Task) × IsGiven (called_of (map string_bytes words.now)) (I.remaining reader) result.source.left command input × (task_of command input ≡ Ok task) × IsCarriedOut task (O.contents writer) result.sink.handed result.done.status result.done.rounds.items }
    ensures first { result.done.rounds.items ≢ [] → (command : ProgramCommand) × (input : List ℕ) × (task : Task) × IsGiven (called_of (map string_bytes words.now)) (I.remaining reader) result.source.left command input × (task_of command input ≡ Ok task) × AreBooksOf task result.done.rounds.items }
    ensures refusal { IsRefusal result.done.status → (command : ProgramCommand) × (input : List ℕ) × IsGiven (called_of (map string_bytes words.now)) (I.remaining reader) result.source.left command input × (task_of command input ≡ Err result.done.status) }
    ensures complete { (command : ProgramCommand) (input : List ℕ) (task : Task) → called_of (map string_bytes words.now) ≡ Ok command → I.remaining reader ≡ Some input → length input ≤ max_input → task_of command input ≡ Ok task → result.source.faults ≡ 0 → result.sink.faults ≡ 0 → (result.done.status ≡ task.end) ⊎ (result.done.status ≡ Status.NoMemory) }
    ensures refused_too { (command : ProgramCommand) (input : List ℕ) (refused : StatusSeen) → called_of (map string_bytes words.now) ≡ Ok command → I.remaining reader ≡ Some input → length input ≤ max_input → task_of command input ≡ Err refused → result.source.faults ≡ 0 → (result.done.status ≡ refused) ⊎ (result.done.status ≡ Status.NoMemory) }
    ensures write_fault { result.done.status ≡ Status.WriteFault → (command : ProgramCommand) × (input : List ℕ) × (task : Task) × IsGiven (called_of (map string_bytes words.now)) (I.remaining reader) result.source.left command input × (task_of command input ≡ Ok task) × IsCutOff command task (O.contents writer) result.sink.written result.done.rounds.items }
    ensures no_memory { result.done.status ≡ Status.NoMemory → ((result.sink.handed ≡ O.contents writer) × (result.done.rounds.items ≡ [])) ⊎ ((command : ProgramCommand) × (input : List ℕ) × (task : Task) × IsGiven (called_of (map string_bytes words.now)) (I.remaining reader) result.source.left command input × (task_of command input ≡ Ok task) × AppendsPrefix (O.contents writer) result.sink.handed (task.text result.done.rounds.items)) }
    ensures nothing { (IsCompleted result.done.status → ⊥) → result.done.status ≢ Status.WriteFault → result.done.status ≢ Status.NoMemory → (result.sink.handed ≡ O.contents writer) × (result.done.rounds.items ≡ []) }
    ensures words { (at : ℕ) → (result.done.status ≡ Status.WordsRefused at) ↔ (called_of (map string_bytes words.now) ≡ Err at) }
    ensures too_long { result.done.status ≡ Status.ScriptTooLong → (bytes : List ℕ) × (length bytes ≡ max_input + 1) × Consumes (I.remaining reader) result.source.left bytes }
    ensures short { result.done.status ≢ Status.ScriptTooLong → result.done.status ≢ Status.NoMemory → (bytes : List ℕ) × (length bytes ≤ max_input) × Consumes (I.remaining reader) result.source.left bytes }
    ensures limit { (bytes : List ℕ) × (length bytes ≤ max_input + 1) × Consumes (I.remaining reader) result.source.left bytes }
    ensures source_rose { result.done.status ≡ Status.ReadFault → 0 < result.source.faults }
    ensures source_kept { result.done.status ≢ Status.ReadFault → result.source.faults ≡ 0 }
    ensures sink_rose { result.done.status ≡ Status.WriteFault → 0 < result.sink.faults }
    ensures sink_kept { result.done.status ≢ Status.WriteFault → result.sink.faults ≡ 0 }
    ensures holds { Holds result.sink.written result.sink.handed result.sink.faults }
{
    let mut source = ReadSource::new(reader);
    let mut sink = WriteSink::new(writer);
    let done = serve(rt, alloc, words, &mut source, &mut sink, gate);
    // Its contract ties what the writer was handed to what was acknowledged.
    let _ = sink.faults();
    Served { done, source, sink }
}
