//! Round after round on one thread, each written when it is done.
ghost use Rattle.std.specs.Prelude.{◌≡◌, ◌+◌, ◌≤◌, ◌^◌, [], ◌∷◌, length};
ghost use Rattle.lvs_model.specs.State.{State};
ghost use Rattle.lvs_model.specs.ScriptLimits.{AreMoments, IsWithinLimits};
ghost use Rattle.lvs_model.specs.Tasks.{AreBooksOfRuns, serial_run, rounds_due};
ghost use Rattle.lvs_run.specs.Written.{AreWritten, HasSinkCause};
ghost use Rattle.lvs_run.specs.Limits.{steps_in};
ghost use Rattle.lvs_run.specs.Ways.{serial_way, ArePlayed};

use crate::director::Director;
use crate::output::Output;
use crate::round::play_round;
use crate::writing::{Wrote, write_round};
use lvs_outside::Sink;
use lvs_types::{Round, RoundBook, Script};
use std::alloc::Global;

/// Rounds that were played, and what became of their texts.
#[derive(Debug, Drop)]
pub(crate) struct Played {
    pub(crate) wrote: Wrote,
    pub(crate) rounds: Vec<RoundBook>,
}

/// Nothing was played for want of memory.
pub(crate) fn nothing_played(alloc: Global) -> Played
    ensures wrote { result.wrote ≡ Wrote.NoMemory }
    ensures rounds { result.rounds.items ≡ [] }
{
    Played {
        wrote: Wrote::NoMemory,
        rounds: Vec::new(alloc),
    }
}

/// Plays the rounds one after the other.
fn play_rounds<K: Sink>(
    alloc: Global,
    output: Output,
    director: &mut Director,
    rounds: &[Round],
    sink: &mut K,
) -> Played
    requires moments { AreMoments rounds.now }
    requires young { director.old.steps + steps_in rounds.now ≤ 2 ^ 62 }
    ensures played { (left : State) × ArePlayed serial_way 0 director.old.state rounds.now result.rounds.items left }
    ensures all { result.wrote ≡ Wrote.All → length result.rounds.items ≡ length rounds.now }
    ensures written { AreWritten output (K.written sink.old) (K.written sink.new) result.rounds.items result.wrote }
    ensures cause { HasSinkCause (K.faults sink.old) (K.faults sink.new) result.wrote }
{
    let mut books = Vec::new(alloc);
    for round in rounds {
        if books.reserve(1).is_err() {
            return Played {
                wrote: Wrote::NoMemory,
                rounds: books,
            };
        }
        let Ok(book) = play_round(alloc, director, books.len() as u64, round) else {
            return Played {
                wrote: Wrote::NoMemory,
                rounds: books,
            };
        };
        let wrote = write_round(alloc, output, &book, sink);
        books.push_reserved(book);
        match wrote {
            Wrote::All => {}
            Wrote::Prefix => return Played {
                wrote: Wrote::Prefix,
                rounds: books,
            },
            Wrote::NoMemory => return Played {
                wrote: Wrote::NoMemory,
                rounds: books,
            },
        }
    }
    Played {
        wrote: Wrote::All,
        rounds: books,
    }
}

/// Plays a script from its start, and writes of each round what is due.
pub(crate) fn play_script<K: Sink>(
    alloc: Global,
    output: Output,
    script: &Script,
    sink: &mut K,
) -> Played
    requires within { IsWithinLimits script.now.rounds }
    ensures books { AreBooksOfRuns (serial_run script.now ∷ []) result.rounds.items }
    ensures all { result.wrote ≡ Wrote.All → length result.rounds.items ≡ rounds_due (serial_run script.now ∷ []) }
    ensures written { AreWritten output (K.written sink.old) (K.written sink.new) result.rounds.items result.wrote }
    ensures cause { HasSinkCause (K.faults sink.old) (K.faults sink.new) result.wrote }
{
    match Director::new(alloc, script.local) {
        Ok(mut director) => {
            let rounds = script.rounds.as_slice();
            play_rounds(alloc, output, &mut director, rounds, sink)
        }
        Err(_) => nothing_played(alloc),
    }
}
