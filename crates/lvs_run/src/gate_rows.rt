//! Runs whose gates hold actors, which show what is under way at the same time.
use crate::gates::{BothInside, Calls, OneInside};
use crate::tests::{Outcome, served};
use crate::{Served, serve_streams};
use lvs_outside::{Gate, OpenGate};
use lvs_types::{Addr, Item, NoMemory, Noted, Reply, RoundBook, Status};
use std::alloc::Global;
use std::io::Cursor;
use std::sync::Wait;
use std::test::Fail;
use std::thread::Threads;

/// A web service with two servers in one round. In the next, ports 40000 and 40002 are the second
/// worker's, in the buckets 2 and 8, and port 40001, which opens and is confirmed, the fourth's, in
/// bucket 13.
const SCRIPT: &[u8] =
    b"local 10.0.0.254\nat 0\nipvs -A -t 10.0.0.1:80 -s rr\nipvs -a -t 10.0.0.1:80 -r 192.168.0.1 -g\nipvs -a -t 10.0.0.1:80 -r 192.168.0.2 -g\nat 0\nin 0 4500002800014000400684b5ac1000090a0000019c4000500000000000000000500220003d380000\nin 0 4500002800014000400684b5ac1000090a0000019c4100500000000000000000500220003d370000\nin 0 4500002800014000400684b5ac1000090a0000019c4200500000000000000000500220003d360000\nin 0 4500002800014000400684b5ac1000090a0000019c4100500000000000000000501020003d290000\n";

/// The flags of a TCP header that opens a connection.
const SYN: u8 = 2;

/// The address 192.168.0.n of a server.
fn server(n: u8) -> Addr {
    Addr {
        number: 0xC0A8_0000 + u32::from(n),
    }
}

/// The server of a new connection.
fn opened_to(noted: &Noted) -> Option<Addr> {
    match (&noted.item, &noted.reply) {
        (Item::Incoming { bytes, .. }, Reply::Forward { to, .. }) => {
            if bytes.as_slice().get(33) == Some(&SYN) {
                Some(*to)
            } else {
                None
            }
        }
        _ => None,
    }
}

/// Whether the servers of new connections are the first, the second and the first, in order of place.
fn are_by_turns(acts: &[Noted]) -> bool {
    let turns = [server(1), server(2), server(1)];
    let mut opened = 0usize;
    for noted in acts {
        if let Some(to) = opened_to(noted) {
            if turns.get(opened) != Some(&to) {
                return false;
            }
            opened += 1;
        }
    }
    opened == turns.len()
}

/// Whether the books have each item of the script once, and the connections their servers by turns.
fn are_as_wanted(rounds: &[RoundBook]) -> bool {
    match rounds {
        [first, second] => {
            first.acts.as_slice().len() == 21
                && second.acts.as_slice().len() == 22
                && are_by_turns(second.acts.as_slice())
        }
        _ => false,
    }
}

/// The text of a run of four workers over sixteen buckets, where it did all of the script, each item
/// once, and the new connections went to the servers by turns.
fn run_with<R: Threads + Wait + Sync, G: Gate + Sync>(
    rt: &R,
    alloc: Global,
    gate: &G,
) -> Result<Option<Outcome>, NoMemory> {
    let mut words = Vec::new(alloc);
    for word in ["run", "4", "16"] {
        words.push(String::from_str(alloc, word)?)?;
    }
    let Served {
        done,
        source: _,
        sink,
    } = serve_streams(
        rt,
        alloc,
        &words,
        Cursor::new(SCRIPT),
        Vec::new(alloc),
        gate,
    );
    if !are_as_wanted(done.rounds.as_slice()) {
        return Ok(None);
    }
    let rounds = done.rounds.len();
    Ok(Some(Outcome {
        status: done.status,
        rounds,
        text: sink.into_inner(),
    }))
}

/// What `check` says of the report.
fn judged(alloc: Global, report: &[u8]) -> Result<Vec<u8>, NoMemory> {
    let mut input = SCRIPT.to_vec(alloc)?;
    input.extend_from_slice(b"report\n")?;
    input.extend_from_slice(report)?;
    Ok(served(alloc, &["check"], &input, &[], &[])?.text)
}

#[test]
fn actors_play_at_once(rt: HostRuntime) -> Result<(), Fail> {
    let run = run_with(&rt, rt.alloc(), &OpenGate)?.ok_or("an item is missing")?;
    assert_eq!(rt; run.status, Status::Finished);
    assert_eq!(rt;
        judged(rt.alloc(), &run.text)?.as_slice(),
        b"legal\n".as_slice()
    );
    Ok(())
}

#[test]
fn events_of_two_buckets_are_under_way_at_once(rt: HostRuntime) -> Result<(), Fail> {
    let gate = BothInside {
        calls: Calls::new(&rt, rt.alloc())?,
    };
    let run = run_with(&rt, rt.alloc(), &gate)?.ok_or("an item is missing")?;
    assert_eq!(rt; run.status, Status::Finished);
    assert!(rt; !gate.calls.has_failed());
    Ok(())
}

#[test]
fn events_of_one_bucket_are_one_after_the_other(rt: HostRuntime) -> Result<(), Fail> {
    let gate = OneInside {
        calls: Calls::new(&rt, rt.alloc())?,
    };
    let run = run_with(&rt, rt.alloc(), &gate)?.ok_or("an item is missing")?;
    assert_eq!(rt; run.status, Status::Finished);
    assert!(rt; !gate.calls.has_failed());
    Ok(())
}
