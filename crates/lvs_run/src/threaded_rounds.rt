//! Round after round with a thread for each actor, each written when it is done.
ghost use Rattle.std.specs.Prelude.{◌≡◌, ◌≢◌, ◌+◌, ◌≤◌, ◌^◌, [], ◌∷◌, length, None, IfSome, IfNone};
ghost use Rattle.lvs_model.specs.State.{State, initial};
ghost use Rattle.lvs_model.specs.ScriptLimits.{AreMoments, IsWithinLimits};
ghost use Rattle.lvs_model.specs.Tasks.{AreBooksOfRuns, threaded_run, rounds_due, state_behind};
ghost use Rattle.lvs_run.specs.Crews.{IsCrew, IsCrewOf};
ghost use Rattle.lvs_run.specs.Written.{AreWritten, HasSinkCause};
ghost use Rattle.lvs_run.specs.Limits.{steps_in};
ghost use Rattle.lvs_run.specs.Ways.{threaded_way, ArePlayed};

use crate::output::Output;
use crate::rounds::{Played, nothing_played};
use crate::threaded::{Crew, play_round};
use crate::writing::{Wrote, write_round};
use lvs_core::Core;
use lvs_outside::{Gate, Sink};
use lvs_types::{Round, RoundBook, Script};
use std::alloc::Global;
use std::sync::Wait;
use std::thread::Threads;

/// Rounds after which no more are played; the director is gone.
fn stopped(wrote: Wrote, rounds: Vec<RoundBook>) -> (Played, Option<Core>)
    requires { wrote ≢ Wrote.All }
    ensures wrote { result.0.wrote ≡ wrote }
    ensures some { result.0.wrote ≢ Wrote.All }
    ensures rounds { result.0.rounds.items ≡ rounds.items }
    ensures none { result.1 ≡ None }
{
    (Played { wrote, rounds }, None)
}

/// Plays the rounds one after the other. Where all was written the director is answered as it then is.
fn play_rounds<R: Threads + Wait + Sync, K: Sink, G: Gate + Sync>(
    alloc: Global,
    output: Output,
    crew: &Crew<'_, R, G>,
    mut core: Core,
    rounds: &[Round],
    sink: &mut K,
) -> (Played, Option<Core>)
    requires crew { IsCrewOf crew.now.workers crew.now.buckets core.state }
    requires moments { AreMoments rounds.now }
    requires young { core.steps + steps_in rounds.now ≤ 2 ^ 62 }
    ensures played { (left : State) × ArePlayed (threaded_way crew.now.workers crew.now.buckets) 0 core.state rounds.now result.0.rounds.items left }
    ensures left { IfSome result.1 (λ c. (result.0.wrote ≡ Wrote.All) × ArePlayed (threaded_way crew.now.workers crew.now.buckets) 0 core.state rounds.now result.0.rounds.items c.state) }
    ensures stopped { IfNone result.1 (result.0.wrote ≢ Wrote.All) }
    ensures all { result.0.wrote ≡ Wrote.All → length result.0.rounds.items ≡ length rounds.now }
    ensures written { AreWritten output (K.written sink.old) (K.written sink.new) result.0.rounds.items result.0.wrote }
    ensures cause { HasSinkCause (K.faults sink.old) (K.faults sink.new) result.0.wrote }
{
    let mut books = Vec::new(alloc);
    for round in rounds {
        if books.reserve(1).is_err() {
            return stopped(Wrote::NoMemory, books);
        }
        let Ok((left, book)) = play_round(alloc, crew, core, books.len() as u64, round) else {
            return stopped(Wrote::NoMemory, books);
        };
        core = left;
        let wrote = write_round(alloc, output, &book, sink);
        books.push_reserved(book);
        match wrote {
            Wrote::All => {}
            Wrote::Prefix => return stopped(Wrote::Prefix, books),
            Wrote::NoMemory => return stopped(Wrote::NoMemory, books),
        }
    }
    let played = Played {
        wrote: Wrote::All,
        rounds: books,
    };
    (played, Some(core))
}

/// Plays a script from its start, and writes of each round what is due. Where all was written the
/// director is answered as it then is.
pub(crate) fn play_threaded<R: Threads + Wait + Sync, K: Sink, G: Gate + Sync>(
    alloc: Global,
    output: Output,
    crew: &Crew<'_, R, G>,
    script: &Script,
    sink: &mut K,
) -> (Played, Option<Core>)
    requires crew { IsCrew crew.now.workers crew.now.buckets }
    requires within { IsWithinLimits script.now.rounds }
    ensures books { AreBooksOfRuns (threaded_run script.now crew.now.workers crew.now.buckets ∷ []) result.0.rounds.items }
    ensures left { IfSome result.1 (λ c. (result.0.wrote ≡ Wrote.All) × (c.state ≡ state_behind (initial script.now.local crew.now.buckets) result.0.rounds.items)) }
    ensures stopped { IfNone result.1 (result.0.wrote ≢ Wrote.All) }
    ensures all { result.0.wrote ≡ Wrote.All → length result.0.rounds.items ≡ rounds_due (threaded_run script.now crew.now.workers crew.now.buckets ∷ []) }
    ensures written { AreWritten output (K.written sink.old) (K.written sink.new) result.0.rounds.items result.0.wrote }
    ensures cause { HasSinkCause (K.faults sink.old) (K.faults sink.new) result.0.wrote }
{
    match Core::new(alloc, script.local, crew.buckets) {
        Ok(core) => {
            let rounds = script.rounds.as_slice();
            play_rounds(alloc, output, crew, core, rounds, sink)
        }
        Err(_) => (nothing_played(alloc), None),
    }
}
