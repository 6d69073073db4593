//! Captured scripts: rounds and lines, and their limits.
use super::samples::{ANSWER, AT_5, CUT_TO_15, ETHERNET, IPV4, IPV6, RAW, SYN, joined};
use crate::{CaptureRefused, captured, read_capture};
use lvs_types::{Addr, Bytes, Capture, CaptureCause, Frame, Listed, Round, Script, ScriptLine};
use std::alloc::{AllocError, Global};
use std::test::Fail;

/// 192.168.0.0, the network of the servers.
const SERVERS: Addr = Addr {
    number: 0xc0a8_0000,
};

/// A script without rounds.
fn empty(alloc: Global) -> Script {
    Script {
        local: Addr { number: 0 },
        rounds: Listed::new(alloc),
    }
}

/// A sync message of 255 records of IPv6, which counts as 255 items.
fn full_message(alloc: Global) -> Result<Vec<u8>, AllocError> {
    let mut message = [0, 7, 4, 4, 255, 1, 0, 0].to_vec(alloc)?;
    for _ in 0..255 {
        message.extend_from_slice(&[1, 6, 0, 4])?;
    }
    Ok(message)
}

/// A script of so many rounds, with 1,048,560 items in sync messages and so many packets.
fn crowded(alloc: Global, rounds: usize, packets: usize) -> Result<Script, AllocError> {
    let message = full_message(alloc)?;
    let mut lines = Vec::new(alloc);
    for _ in 0..4_112 {
        lines.push(ScriptLine::Sync(Bytes::copied(alloc, &message)?))?;
    }
    for _ in 0..packets {
        lines.push(ScriptLine::Outgoing(Listed::new(alloc)))?;
    }
    let mut all = Vec::new(alloc);
    all.push(Round {
        moment: 0,
        lines: Listed::from_vec(lines),
    })?;
    for _ in 1..rounds {
        all.push(Round {
            moment: 0,
            lines: Listed::new(alloc),
        })?;
    }
    Ok(Script {
        local: Addr { number: 0 },
        rounds: Listed::from_vec(all),
    })
}

/// So many packets, one in each second.
fn flood(alloc: Global, count: u32) -> Result<Capture, AllocError> {
    let mut frames = Vec::new(alloc);
    for seconds in 0..count {
        frames.push(Frame {
            seconds,
            micros: 0,
            whole: 0,
            bytes: Listed::new(alloc),
        })?;
    }
    Ok(Capture {
        link: 101,
        frames: Listed::from_vec(frames),
    })
}

/// The moment of a round, and whether each of its lines is an outgoing packet.
fn shape(alloc: Global, round: &Round) -> Result<(u64, Vec<bool>), AllocError> {
    let mut outgoing = Vec::new(alloc);
    for line in round.lines.as_slice() {
        outgoing.push(matches!(line, ScriptLine::Outgoing(_)))?;
    }
    Ok((round.moment, outgoing))
}

/// The capture is cut into rounds behind the script's own, by seconds and by where packets come from.
#[test]
fn packets_follow_the_script(rt: HostRuntime) -> Result<(), Fail> {
    let alloc = rt.alloc();
    let file = joined(alloc, &[&RAW, &AT_5, &SYN, &AT_5, &ANSWER])?;
    let mut script = empty(alloc);
    captured(
        alloc,
        SERVERS,
        16,
        1,
        &mut script,
        read_capture(alloc, &file)?,
    )?;
    captured(
        alloc,
        SERVERS,
        16,
        2,
        &mut script,
        read_capture(alloc, &file)?,
    )?;
    let [first, second] = script.rounds.as_slice() else {
        return Err(Fail::from("two rounds"));
    };
    let sent = [false, true];
    assert_eq!(rt; shape(alloc, first)?, (5, sent.to_vec(alloc)?));
    assert_eq!(rt; shape(alloc, second)?, (5, sent.to_vec(alloc)?));
    Ok(())
}

/// Frames without IPv4 make no line.
#[test]
fn frames_without_ipv4_are_skipped(rt: HostRuntime) -> Result<(), Fail> {
    let alloc = rt.alloc();
    let file = joined(alloc, &[&ETHERNET, &CUT_TO_15, &IPV6, &CUT_TO_15, &IPV4])?;
    let capture = read_capture(alloc, &file)?;
    let mut script = empty(alloc);
    captured(alloc, SERVERS, 16, 86_400, &mut script, capture)?;
    let [round] = script.rounds.as_slice() else {
        return Err(Fail::from("one round"));
    };
    assert_eq!(rt; shape(alloc, round)?, (0, [false].to_vec(alloc)?));
    Ok(())
}

fn refused(at: u64, cause: CaptureCause) -> Result<(), CaptureRefused> {
    Err(CaptureRefused::Refused { at, cause })
}

/// The greatest number of rounds, and one more; a refusal leaves the script as it was.
#[test]
fn limit_of_rounds(rt: HostRuntime) -> Result<(), Fail> {
    let alloc = rt.alloc();
    let mut script = empty(alloc);
    let many = captured(alloc, SERVERS, 16, 1, &mut script, flood(alloc, 4_097)?);
    assert_eq!(rt; many, refused(4_097, CaptureCause::TooManyRounds));
    assert_eq!(rt; script.rounds.as_slice().len(), 0);
    captured(alloc, SERVERS, 16, 1, &mut script, flood(alloc, 4_096)?)?;
    assert_eq!(rt; script.rounds.as_slice().len(), 4_096);
    Ok(())
}

/// A second packet that is an item too many, in one round with the first and in a round too many.
#[test]
fn limit_of_items(rt: HostRuntime) -> Result<(), Fail> {
    let alloc = rt.alloc();
    let mut script = crowded(alloc, 4_095, 15)?;
    let items = captured(alloc, SERVERS, 16, 60, &mut script, flood(alloc, 2)?);
    assert_eq!(rt; items, refused(2, CaptureCause::TooManyItems));
    let both = captured(alloc, SERVERS, 16, 1, &mut script, flood(alloc, 2)?);
    assert_eq!(rt; both, refused(2, CaptureCause::TooManyRounds));
    assert_eq!(rt; script.rounds.as_slice().len(), 4_095);
    Ok(())
}
