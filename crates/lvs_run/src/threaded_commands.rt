//! What the commands of many threads do with their input: `run` and `demo`.
ghost use Rattle.std.specs.Prelude.{◌≡◌, ◌≢◌, ◌≤◌, ◌∷◌, [], length, Ok};
ghost use Rattle.lvs_types.specs.declared.program.ProgramCommand.TheVariants as program;
ghost use Rattle.lvs_outside.specs.Faults.{Rose};
ghost use Rattle.lvs_model.specs.ScriptLimits.{IsWithinLimits};
ghost use Rattle.lvs_model.specs.Snapshots.{snapshot_of};
ghost use Rattle.lvs_model.specs.Summaries.{summary_text};
ghost use Rattle.lvs_model.specs.Tasks.{task_of, threaded_run, demo_run, summary_of, summary_task, AreBooksOfRuns, rounds_due};
ghost use Rattle.lvs_run.specs.Answers.{IsAnswer};
ghost use Rattle.lvs_run.specs.Crews.{IsCrew};
ghost use Rattle.lvs_run.specs.Words.{IsCalled};
ghost use Rattle.lvs_run.specs.Written.{IsWrote, IsWrittenOut, HasSinkCause};

use crate::Done;
use crate::commands::perform;
use crate::done::{with_rounds, without_rounds};
use crate::given::given_script;
use crate::output::Output;
use crate::rounds::Played;
use crate::threaded::Crew;
use crate::threaded_rounds::play_threaded;
use crate::writing::{Wrote, write_text};
use lvs_core::Core;
use lvs_outside::{Gate, Sink};
use lvs_script::generate;
use lvs_summary::print_summary;
use lvs_types::{ProgramCommand, RoundBook, Script, Status};
use std::alloc::Global;
use std::sync::Wait;
use std::thread::Threads;

/// The workers of a demonstration.
const DEMO_WORKERS: u32 = 4;

/// The buckets of a demonstration.
const DEMO_BUCKETS: u32 = 16;

/// `run`: the report of the script's rounds.
fn run_script<R: Threads + Wait + Sync, K: Sink, G: Gate + Sync>(
    alloc: Global,
    crew: &Crew<'_, R, G>,
    input: &[u8],
    sink: &mut K,
) -> Done
    requires crew { IsCrew crew.now.workers crew.now.buckets }
    ensures answer { IsAnswer (program.Run crew.now.workers crew.now.buckets) (task_of (program.Run crew.now.workers crew.now.buckets) input.now) (K.written sink.old) (K.written sink.new) result.status result.rounds.items }
    ensures rose { result.status ≡ Status.WriteFault → Rose (K.faults sink.old) (K.faults sink.new) }
    ensures kept { result.status ≢ Status.WriteFault → K.faults sink.new ≡ K.faults sink.old }
{
    match given_script(alloc, input) {
        Ok(script) => with_rounds(play_threaded(alloc, Output::Report, crew, &script, sink).0),
        Err(status) => without_rounds(alloc, status),
    }
}

/// Writes the summary of books, and of the tables of a director.
fn write_summary<K: Sink>(alloc: Global, core: &Core, books: &[RoundBook], sink: &mut K) -> Wrote
    ensures text { IsWrote (K.written sink.old) (K.written sink.new) (summary_text books.now (snapshot_of core.now.state)) result }
    ensures cause { HasSinkCause (K.faults sink.old) (K.faults sink.new) result }
{
    let Ok(tables) = core.snapshot(alloc) else {
        return Wrote::NoMemory;
    };
    match print_summary(alloc, books, &tables) {
        Ok(text) => write_text(&text, sink),
        Err(_) => Wrote::NoMemory,
    }
}

/// Plays a script with threads, and writes its summary.
fn play_summary<R: Threads + Wait + Sync, K: Sink, G: Gate + Sync>(
    alloc: Global,
    crew: &Crew<'_, R, G>,
    script: &Script,
    sink: &mut K,
) -> Played
    requires crew { IsCrew crew.now.workers crew.now.buckets }
    requires within { IsWithinLimits script.now.rounds }
    ensures books { AreBooksOfRuns (threaded_run script.now crew.now.workers crew.now.buckets ∷ []) result.rounds.items }
    ensures all { result.wrote ≡ Wrote.All → length result.rounds.items ≡ rounds_due (threaded_run script.now crew.now.workers crew.now.buckets ∷ []) }
    ensures written { IsWrittenOut (K.written sink.old) (K.written sink.new) (summary_of (threaded_run script.now crew.now.workers crew.now.buckets) result.rounds.items) result.wrote }
    ensures cause { HasSinkCause (K.faults sink.old) (K.faults sink.new) result.wrote }
{
    let (played, left) = play_threaded(alloc, Output::Nothing, crew, script, sink);
    let Some(core) = left else {
        return played;
    };
    let wrote = write_summary(alloc, &core, &played.rounds, sink);
    Played {
        wrote,
        rounds: played.rounds,
    }
}

/// `demo`: the summary of the demonstration's script of so many clients.
fn demonstrate<R: Threads + Wait + Sync, K: Sink, G: Gate + Sync>(
    rt: &R,
    alloc: Global,
    clients: u32,
    sink: &mut K,
    gate: &G,
) -> Done
    requires some { 1 ≤ clients }
    requires few { clients ≤ 100000 }
    ensures answer { IsAnswer (program.Demo clients) (Ok (summary_task (demo_run clients))) (K.written sink.old) (K.written sink.new) result.status result.rounds.items }
    ensures rose { result.status ≡ Status.WriteFault → Rose (K.faults sink.old) (K.faults sink.new) }
    ensures kept { result.status ≢ Status.WriteFault → K.faults sink.new ≡ K.faults sink.old }
{
    let crew = Crew {
        workers: DEMO_WORKERS,
        buckets: DEMO_BUCKETS,
        rt,
        gate,
    };
    match generate(alloc, clients) {
        Ok(script) => with_rounds(play_summary(alloc, &crew, &script, sink)),
        Err(_) => without_rounds(alloc, Status::NoMemory),
    }
}

/// Does what a command asks for with the whole input, on one thread or on many.
pub(crate) fn perform_threaded<R: Threads + Wait + Sync, K: Sink, G: Gate + Sync>(
    rt: &R,
    alloc: Global,
    command: &ProgramCommand,
    input: &[u8],
    sink: &mut K,
    gate: &G,
) -> Done
    requires called { IsCalled command.now }
    ensures answer { IsAnswer command.now (task_of command.now input.now) (K.written sink.old) (K.written sink.new) result.status result.rounds.items }
    ensures rose { result.status ≡ Status.WriteFault → Rose (K.faults sink.old) (K.faults sink.new) }
    ensures kept { result.status ≢ Status.WriteFault → K.faults sink.new ≡ K.faults sink.old }
{
    match command {
        ProgramCommand::Run { workers, buckets } => {
            let crew = Crew {
                workers: *workers,
                buckets: *buckets,
                rt,
                gate,
            };
            run_script(alloc, &crew, input, sink)
        }
        ProgramCommand::Demo { clients } => demonstrate(rt, alloc, *clients, sink, gate),
        _ => perform(alloc, command, input, sink),
    }
}
