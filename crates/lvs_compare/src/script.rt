//! Scripts by chance.
use crate::chance::Chance;
use crate::edits::{put_daemon, put_edit, put_new_server, put_new_service, put_sysctl};
use crate::messages::put_message;
use crate::packets::{put_incoming, put_outgoing};
use lvs_text::{put, put_number};
use lvs_types::NoMemory;
use std::alloc::Global;

/// Moments at which scripts begin: the last is near the greatest one.
const FIRST_MOMENTS: [u64; 4] = [0, 0, 7, 4_294_900_000];

/// Seconds between two rounds.
const STEPS: [u64; 8] = [0, 1, 2, 10, 60, 61, 300, 1000];

/// What most lines of a script are.
#[derive(Clone, Copy, Debug)]
enum Mood {
    Packets,
    Edits,
    Messages,
}

/// Appends a line of the mood.
fn put_usual(
    alloc: Global,
    out: &mut Vec<u8>,
    chance: &mut Chance,
    mood: Mood,
) -> Result<(), NoMemory> {
    match mood {
        Mood::Packets if chance.once_in(3) => put_outgoing(alloc, out, chance),
        Mood::Packets => put_incoming(alloc, out, chance),
        Mood::Edits => put_edit(out, chance),
        Mood::Messages => put_message(alloc, out, chance),
    }
}

/// Appends any line of a round.
fn put_line(
    alloc: Global,
    out: &mut Vec<u8>,
    chance: &mut Chance,
    mood: Mood,
) -> Result<(), NoMemory> {
    match chance.below(16) {
        0 | 1 => put_edit(out, chance)?,
        2 => put_sysctl(out, chance)?,
        3 => put_message(alloc, out, chance)?,
        4..=8 => put_incoming(alloc, out, chance)?,
        9 | 10 => put_outgoing(alloc, out, chance)?,
        _ => put_usual(alloc, out, chance, mood)?,
    }
    put(out, b"\n")
}

/// Appends the line that begins a round.
fn put_moment(out: &mut Vec<u8>, moment: u64) -> Result<(), NoMemory> {
    put(out, b"at ")?;
    put_number(out, moment)?;
    put(out, b"\n")
}

/// Appends services, servers and daemons.
fn put_opening(out: &mut Vec<u8>, chance: &mut Chance) -> Result<(), NoMemory> {
    for number in 0..72u32 {
        match number {
            0..=15 => put_new_service(out, chance)?,
            16..=67 => put_new_server(out, chance)?,
            _ => put_daemon(out, chance)?,
        }
        put(out, b"\n")?;
    }
    Ok(())
}

/// Appends the lines of a round.
fn put_lines(
    alloc: Global,
    out: &mut Vec<u8>,
    chance: &mut Chance,
    mood: Mood,
) -> Result<(), NoMemory> {
    let lines = chance.below(60);
    for _ in 0..lines {
        put_line(alloc, out, chance, mood)?;
    }
    Ok(())
}

/// The script that chance makes: services and servers, and then some rounds of lines of each kind.
pub(crate) fn script_text(alloc: Global, chance: &mut Chance) -> Result<Vec<u8>, NoMemory> {
    let mut out = Vec::new(alloc);
    let mut moment = chance.pick(&FIRST_MOMENTS);
    put(&mut out, b"local 10.0.0.254\n")?;
    put_moment(&mut out, moment)?;
    put_opening(&mut out, chance)?;
    let mood = chance.pick(&[Mood::Packets, Mood::Packets, Mood::Edits, Mood::Messages]);
    let rounds = 1 + chance.below(10);
    for _ in 0..rounds {
        put_lines(alloc, &mut out, chance, mood)?;
        moment = moment.saturating_add(chance.pick(&STEPS));
        put_moment(&mut out, moment)?;
    }
    Ok(out)
}
