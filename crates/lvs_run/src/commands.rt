//! What each command does with its input.
ghost use Rattle.std.specs.Prelude.{◌≡◌, ◌≢◌, ◌≤◌, ◌<◌, ◌∷◌, [], length};
ghost use Rattle.lvs_types.specs.declared.program.ProgramCommand.TheVariants as program;
ghost use Rattle.lvs_outside.specs.Faults.{Rose};
ghost use Rattle.lvs_model.specs.ScriptLimits.{IsWithinLimits};
ghost use Rattle.lvs_model.specs.Tasks.{task_of, serial_run, AreBooksOfRuns, rounds_due};
ghost use Rattle.lvs_run.specs.Answers.{IsAnswer};
ghost use Rattle.lvs_run.specs.Words.{IsAsked};
ghost use Rattle.lvs_run.specs.Written.{IsSent, HasSinkCause};

use crate::Done;
use crate::done::{ended, with_rounds, without_rounds};
use crate::given::{given_captured, given_script, given_verdict};
use crate::output::Output;
use crate::rounds::{Played, play_script};
use crate::verdict::{verdict_end, write_verdict};
use crate::writing::{Wrote, write_header};
use lvs_outside::Sink;
use lvs_types::{Addr, ProgramCommand, Script, Status};
use std::alloc::Global;

/// `serial`: the report of the script's rounds.
fn report_script<K: Sink>(alloc: Global, input: &[u8], sink: &mut K) -> Done
    ensures answer { IsAnswer program.Serial (task_of program.Serial input.now) (K.written sink.old) (K.written sink.new) result.status result.rounds.items }
    ensures rose { result.status ≡ Status.WriteFault → Rose (K.faults sink.old) (K.faults sink.new) }
    ensures kept { result.status ≢ Status.WriteFault → K.faults sink.new ≡ K.faults sink.old }
{
    match given_script(alloc, input) {
        Ok(script) => with_rounds(play_script(alloc, Output::Report, &script, sink)),
        Err(status) => without_rounds(alloc, status),
    }
}

/// Plays a script, and writes the capture file of the packets that were sent.
fn play_captured<K: Sink>(alloc: Global, script: &Script, sink: &mut K) -> Played
    requires within { IsWithinLimits script.now.rounds }
    ensures books { AreBooksOfRuns (serial_run script.now ∷ []) result.rounds.items }
    ensures all { result.wrote ≡ Wrote.All → length result.rounds.items ≡ rounds_due (serial_run script.now ∷ []) }
    ensures written { IsSent (K.written sink.old) (K.written sink.new) result.rounds.items result.wrote }
    ensures cause { HasSinkCause (K.faults sink.old) (K.faults sink.new) result.wrote }
{
    match write_header(alloc, sink) {
        Wrote::All => play_script(alloc, Output::Frames, script, sink),
        stopped => Played {
            wrote: stopped,
            rounds: Vec::new(alloc),
        },
    }
}

/// `capture`: the script's rounds and those of the capture, and the capture file of the packets that
/// were sent.
fn capture_script<K: Sink>(
    alloc: Global,
    net: Addr,
    bits: u8,
    step: u32,
    input: &[u8],
    sink: &mut K,
) -> Done
    requires bits { bits ≤ 32 }
    requires step { 0 < step }
    ensures answer { IsAnswer (program.Capture net bits step) (task_of (program.Capture net bits step) input.now) (K.written sink.old) (K.written sink.new) result.status result.rounds.items }
    ensures rose { result.status ≡ Status.WriteFault → Rose (K.faults sink.old) (K.faults sink.new) }
    ensures kept { result.status ≢ Status.WriteFault → K.faults sink.new ≡ K.faults sink.old }
{
    match given_captured(alloc, net, bits, step, input) {
        Ok(script) => with_rounds(play_captured(alloc, &script, sink)),
        Err(status) => without_rounds(alloc, status),
    }
}

/// `check`: the verdict on the report behind the script.
fn check_report<K: Sink>(alloc: Global, input: &[u8], sink: &mut K) -> Done
    ensures answer { IsAnswer program.Check (task_of program.Check input.now) (K.written sink.old) (K.written sink.new) result.status result.rounds.items }
    ensures rose { result.status ≡ Status.WriteFault → Rose (K.faults sink.old) (K.faults sink.new) }
    ensures kept { result.status ≢ Status.WriteFault → K.faults sink.new ≡ K.faults sink.old }
{
    match given_verdict(alloc, input) {
        Ok(verdict) => {
            let wrote = write_verdict(alloc, &verdict, sink);
            without_rounds(alloc, ended(verdict_end(verdict), wrote))
        }
        Err(status) => without_rounds(alloc, status),
    }
}

/// Does what a command asks for with the whole input.
pub(crate) fn perform<K: Sink>(
    alloc: Global,
    command: &ProgramCommand,
    input: &[u8],
    sink: &mut K,
) -> Done
    requires asked { IsAsked command.now }
    ensures answer { IsAnswer command.now (task_of command.now input.now) (K.written sink.old) (K.written sink.new) result.status result.rounds.items }
    ensures rose { result.status ≡ Status.WriteFault → Rose (K.faults sink.old) (K.faults sink.new) }
    ensures kept { result.status ≢ Status.WriteFault → K.faults sink.new ≡ K.faults sink.old }
{
    match command {
        ProgramCommand::Serial => report_script(alloc, input, sink),
        ProgramCommand::Check => check_report(alloc, input, sink),
        ProgramCommand::Capture { net, bits, step } => {
            capture_script(alloc, *net, *bits, *step, input, sink)
        }
        _ => unreachable!(),
    }
}
