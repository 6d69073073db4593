//! Scripts through the top call.
use crate::{exit_code, serve, serve_serial, serve_streams};
use lvs_outside::{MemSink, MemSource, OpenGate};
use lvs_types::{NoMemory, ScriptCause, Status};
use std::alloc::Global;
use std::io::Cursor;
use std::test::Fail;

/// One service by turns with two servers, and three packets.
pub(crate) const SCRIPT: &[u8] =
    b"local 10.0.0.254\nat 0\nipvs -A -t 10.0.0.1:80 -s rr\nipvs -a -t 10.0.0.1:80 -r 192.168.0.1 -g\nipvs -a -t 10.0.0.1:80 -r 192.168.0.2 -g\nin 0 4500002800014000400684b5ac1000090a0000019c4000500000000000000000500220003d380000\nin 0 4500002800014000400684b5ac1000090a0000019c4100500000000000000000500220003d370000\nin 0 4500002800014000400684b5ac1000090a0000019c4200500000000000000000500220003d360000\n";

/// They go to the first, the second and the first server.
pub(crate) const REPORT: &[u8] =
    b"round 0 at 0 workers 1 buckets 1\n2 1.0 ok\n3 1.1 ok\n4 1.2 ok\n5 3.0 fwd direct 192.168.0.1 4500002800014000400684b5ac1000090a0000019c4000500000000000000000500220003d380000\n6 3.1 fwd direct 192.168.0.2 4500002800014000400684b5ac1000090a0000019c4100500000000000000000500220003d370000\n7 3.2 fwd direct 192.168.0.1 4500002800014000400684b5ac1000090a0000019c4200500000000000000000500220003d360000\n";

/// What a run gave: its status, how many rounds it had, and what it wrote.
#[derive(Drop)]
pub(crate) struct Outcome {
    pub(crate) status: Status,
    pub(crate) rounds: usize,
    pub(crate) text: Vec<u8>,
}

pub(crate) fn served(
    alloc: Global,
    words: &[&str],
    script: &[u8],
    read_fails: &[u64],
    write_fails: &[u64],
) -> Result<Outcome, NoMemory> {
    let mut list = Vec::new(alloc);
    for word in words {
        list.push(String::from_str(alloc, word)?)?;
    }
    let mut source = MemSource::new(script.to_vec(alloc)?, 5, read_fails.to_vec(alloc)?);
    let mut sink = MemSink::new(alloc, 7, 1000, write_fails.to_vec(alloc)?)?;
    let done = serve_serial(alloc, &list, &mut source, &mut sink);
    let text = sink.bytes().to_vec(alloc)?;
    Ok(Outcome {
        status: done.status,
        rounds: done.rounds.len(),
        text,
    })
}

#[test]
fn the_empty_input_has_no_rounds(rt: HostRuntime) -> Result<(), Fail> {
    let run = served(rt.alloc(), &["serial"], b"", &[], &[])?;
    assert_eq!(rt; run.status, Status::Finished);
    assert_eq!(rt; run.rounds, 0);
    assert_eq!(rt; run.text.len(), 0);
    Ok(())
}

#[test]
fn three_packets_go_round_two_servers(rt: HostRuntime) -> Result<(), Fail> {
    let run = served(rt.alloc(), &["serial"], SCRIPT, &[], &[])?;
    assert_eq!(rt; run.status, Status::Finished);
    assert_eq!(rt; run.rounds, 1);
    assert_eq!(rt; run.text.as_slice(), REPORT);
    Ok(())
}

#[test]
fn a_failing_source_leaves_nothing(rt: HostRuntime) -> Result<(), Fail> {
    let run = served(rt.alloc(), &["serial"], SCRIPT, &[1], &[])?;
    assert_eq!(rt; run.status, Status::ReadFault);
    assert_eq!(rt; run.rounds, 0);
    assert_eq!(rt; run.text.len(), 0);
    Ok(())
}

#[test]
fn a_failing_sink_keeps_the_round(rt: HostRuntime) -> Result<(), Fail> {
    let run = served(rt.alloc(), &["serial"], SCRIPT, &[], &[0])?;
    assert_eq!(rt; run.status, Status::WriteFault);
    assert_eq!(rt; run.rounds, 1);
    assert_eq!(rt; run.text.len(), 0);
    Ok(())
}

#[test]
fn words_and_scripts_are_refused(rt: HostRuntime) -> Result<(), Fail> {
    let alloc = rt.alloc();
    assert_eq!(rt;
        served(alloc, &[], SCRIPT, &[], &[])?.status,
        Status::WordsRefused { at: 0 }
    );
    assert_eq!(rt;
        served(alloc, &["tests"], SCRIPT, &[], &[])?.status,
        Status::WordsRefused { at: 0 }
    );
    assert_eq!(rt;
        served(alloc, &["serial", "4"], SCRIPT, &[], &[])?.status,
        Status::WordsRefused { at: 1 }
    );
    let refused = served(alloc, &["serial"], b"x\n", &[], &[])?;
    assert_eq!(rt;
        refused.status,
        Status::ScriptRefused {
            line: 1,
            cause: ScriptCause::UnknownLine,
        }
    );
    Ok(())
}

/// A listing in the middle of a round, and two at its end.
const LISTED: &[u8] =
    b"at 0\nlist\nipvs -A -t 10.0.0.1:80 -s rr\nconns\nipvs -a -t 10.0.0.1:80 -r 192.168.0.1 -g\nsave\n";

/// All three stand behind the acts, and show what these left.
const LISTINGS: &[u8] =
    b"round 0 at 0 workers 1 buckets 1\n2 1.0 ok\n3 1.1 ok\nlist\nTCP 10.0.0.1:80 rr\n  -> 192.168.0.1:80 Route 1 0 0\nend\nconns\nend\nsave\n-A -t 10.0.0.1:80 -s rr\n-a -t 10.0.0.1:80 -r 192.168.0.1:80 -g -w 1\nend\n";

#[test]
fn listings_show_what_the_round_left(rt: HostRuntime) -> Result<(), Fail> {
    let run = served(rt.alloc(), &["serial"], LISTED, &[], &[])?;
    assert_eq!(rt; run.status, Status::Finished);
    assert_eq!(rt; run.rounds, 1);
    assert_eq!(rt; run.text.as_slice(), LISTINGS);
    Ok(())
}

#[test]
fn the_top_call_does_serial(rt: HostRuntime) -> Result<(), Fail> {
    let alloc = rt.alloc();
    let mut words = Vec::new(alloc);
    words.push(String::from_str(alloc, "serial")?)?;
    let mut source = MemSource::new(SCRIPT.to_vec(alloc)?, 64, Vec::new(alloc));
    let mut sink = MemSink::new(alloc, 1000, 1000, Vec::new(alloc))?;
    let done = serve(&rt, alloc, &words, &mut source, &mut sink, &OpenGate);
    assert_eq!(rt; done.status, Status::Finished);
    assert_eq!(rt; sink.bytes(), REPORT);
    Ok(())
}

#[test]
fn a_reader_and_a_writer_of_std_serve(rt: HostRuntime) -> Result<(), Fail> {
    let alloc = rt.alloc();
    let mut words = Vec::new(alloc);
    words.push(String::from_str(alloc, "serial")?)?;
    let served = serve_streams(
        &rt,
        alloc,
        &words,
        Cursor::new(SCRIPT),
        Vec::new(alloc),
        &OpenGate,
    );
    assert_eq!(rt; served.done.status, Status::Finished);
    assert_eq!(rt; exit_code(&served.done.status), 0);
    assert_eq!(rt; served.sink.into_inner().as_slice(), REPORT);
    Ok(())
}
