//! The script that a capture makes of a script.
ghost use Rattle.std.specs.Prelude.{◌≡◌, ◌≤◌, ◌<◌, ◌+◌, ◌++◌, ◌∷◌, List, max, OnOk, OnErr, IfErr, IfOk, MatchResult, Ok, Err};
ghost use Rattle.lvs_model.specs.Captured.{captured as spec_captured, last_moment as spec_last_moment, moment_after as spec_moment_after};
ghost use Rattle.lvs_model.specs.ScriptLimits.{IsWithinLimits};
ghost use Rattle.lvs_types.specs.declared.capture.Frame.{Frame as FrameSeen};
ghost use Rattle.lvs_pcap.specs.Frames.{with_frames, rounds_result, none_made_behind};
ghost use Rattle.lvs_pcap.specs.Reading.{IsRefusal, AreInSeconds};

use crate::counting::count_rounds;
use crate::making::RoundMaker;
use crate::packets::{FrameRule, into_ip, packet_line};
use crate::refused::CaptureRefused;
use lvs_types::{Addr, Capture, Frame, Listed, NoMemory, Round, Script};
use std::alloc::Global;
use std::mem;

/// Adds to a script the rounds of a capture's packets (this project's profile).
///
/// Frames without IPv4 are skipped. A packet's moment is its seconds rounded down to a multiple of
/// `step`, but not before the packet before it, nor before the script's last round. A packet begins
/// a round where it is the first or has a later moment. It is an outgoing one where its source
/// agrees with `net` in the first `bits` bits, else an incoming one with mark 0. TooManyRounds comes
/// at the record whose round would be the 4,097th, TooManyItems at the one whose item would be the
/// 1,048,577th; the earlier record counts, and at one record TooManyRounds. After a refusal the
/// script is as before. A script within its limits stays within them.
///
/// A packet's bytes move from its frame into its line.
pub fn captured(
    alloc: Global,
    net: Addr,
    bits: u8,
    step: u32,
    script: &mut Script,
    capture: Capture,
) -> Result<(), CaptureRefused>
    requires bits { bits ≤ 32 }
    requires step { 0 < step }
    ensures ok { OnOk result (spec_captured net bits step script.old capture ≡ Ok script.new) }
    ensures within { OnOk result (IsWithinLimits script.old.rounds → AreInSeconds capture.frames → IsWithinLimits script.new.rounds) }
    ensures refused { IfErr result (IsRefusal (spec_captured net bits step script.old capture)) }
    ensures kept { OnErr result (script.new ≡ script.old) }
{
    let rule = FrameRule {
        link: capture.link,
        net,
        bits,
        step,
    };
    let frames = capture.frames.into_vec();
    let mut rounds = make_rounds(alloc, rule, script.rounds.as_slice(), frames)?;
    Ok(append_rounds(alloc, script, &mut rounds)?)
}

/// The rounds of the packets of frames, behind those of a script.
fn make_rounds(
    alloc: Global,
    rule: FrameRule,
    script: &[Round],
    frames: Vec<Frame>,
) -> Result<Vec<Round>, CaptureRefused>
    requires bits { rule.bits ≤ 32 }
    requires step { 0 < rule.step }
    ensures ok { IfOk result (λ rounds. rounds_result (with_frames rule 1 (spec_last_moment script.now) frames.items (none_made_behind script.now)) ≡ Ok rounds.items) }
    ensures refused { IfErr result (IsRefusal (with_frames rule 1 (spec_last_moment script.now) frames.items (none_made_behind script.now))) }
{
    let mut maker = RoundMaker::new(alloc, script.len(), count_rounds(alloc, script)?);
    let mut moment = last_moment(script);
    let mut at = 1u64;
    for frame in frames {
        moment = take_frame(rule, &mut maker, at, moment, frame)?;
        at += 1;
    }
    Ok(maker.finish()?)
}

/// One more frame, of the record of that number, behind a packet of that moment; and the moment
/// behind it.
fn take_frame(
    rule: FrameRule,
    maker: &mut RoundMaker,
    at: u64,
    before: u64,
    frame: Frame,
) -> Result<u64, CaptureRefused>
    requires bits { rule.bits ≤ 32 }
    requires step { 0 < rule.step }
    ensures ok { IfOk result (λ moment. (later : List FrameSeen) → with_frames rule at before (frame ∷ later) maker.old ≡ with_frames rule (at + 1) moment later maker.new) }
    ensures refused { IfErr result (λ refused. (later : List FrameSeen) → IsRefusal (with_frames rule at before (frame ∷ later) maker.old) refused) }
{
    let seconds = frame.seconds;
    let Some(bytes) = into_ip(rule.link, frame) else {
        return Ok(before);
    };
    let moment = moment_after(rule.step, before, seconds);
    maker.take_packet(at, moment, packet_line(rule, bytes))?;
    Ok(moment)
}

/// The moment of the last round, 0 where there is none.
fn last_moment(rounds: &[Round]) -> u64
    ensures { result ≡ spec_last_moment rounds.now }
{
    match rounds.last() {
        Some(round) => round.moment,
        None => 0,
    }
}

/// The moment of a packet behind one of the moment before it.
fn moment_after(step: u32, before: u64, seconds: u32) -> u64
    requires { 0 < step }
    ensures { result ≡ spec_moment_after step before seconds }
{
    before.max(u64::from(seconds - seconds % step))
}

/// More rounds at the end of a script.
fn append_rounds(
    alloc: Global,
    script: &mut Script,
    rounds: &mut Vec<Round>,
) -> Result<(), NoMemory>
    ensures ok { OnOk result (script.new ≡ record script.old { rounds = script.old.rounds ++ rounds.old.items }) }
    ensures kept { OnErr result (script.new ≡ script.old) }
{
    let mut all = mem::replace(&mut script.rounds, Listed::new(alloc)).into_vec();
    let appended = all.append(rounds);
    script.rounds = Listed::from_vec(all);
    Ok(appended?)
}
