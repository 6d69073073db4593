//! Threads and demonstrations through the top call.
use crate::tests::{Outcome, SCRIPT, served};
use crate::{Served, serve, serve_streams};
use lvs_outside::{MemSink, MemSource, OpenGate};
use lvs_report::print_round;
use lvs_types::{NoMemory, Status};
use std::alloc::Global;
use std::io::Cursor;
use std::sync::Wait;
use std::test::Fail;
use std::thread::Threads;

/// Ten clients go round four servers, twice three and twice two of them, and each is answered to its
/// ACK.
const SUMMARY: &[u8] =
    b"rounds 3\npackets 20\nforwarded 20\nentries 10\nserver 192.168.0.1:80 active 3 inactive 0\nserver 192.168.0.2:80 active 3 inactive 0\nserver 192.168.0.3:80 active 2 inactive 0\nserver 192.168.0.4:80 active 2 inactive 0\n";

fn streamed<R: Threads + Wait + Sync>(
    rt: &R,
    alloc: Global,
    words: &[&str],
    script: &[u8],
) -> Result<Outcome, NoMemory> {
    let mut list = Vec::new(alloc);
    for word in words {
        list.push(String::from_str(alloc, word)?)?;
    }
    let Served {
        done,
        source: _,
        sink,
    } = serve_streams(
        rt,
        alloc,
        &list,
        Cursor::new(script),
        Vec::new(alloc),
        &OpenGate,
    );
    let rounds = done.rounds.len();
    Ok(Outcome {
        status: done.status,
        rounds,
        text: sink.into_inner(),
    })
}

/// Which packet comes first may differ from run to run, and the picks follow the places: `check` judges
/// the report.
#[test]
fn a_run_with_threads_is_legal(rt: HostRuntime) -> Result<(), Fail> {
    let alloc = rt.alloc();
    let run = streamed(&rt, alloc, &["run", "4", "16"], SCRIPT)?;
    assert_eq!(rt; run.status, Status::Finished);
    assert_eq!(rt; run.rounds, 1);
    let mut judged = SCRIPT.to_vec(alloc)?;
    judged.extend_from_slice(b"report\n")?;
    judged.extend_from_slice(&run.text)?;
    let verdict = served(alloc, &["check"], &judged, &[], &[])?;
    assert_eq!(rt; verdict.text.as_slice(), b"legal\n".as_slice());
    Ok(())
}

#[test]
fn a_demonstration_ends_with_its_summary(rt: HostRuntime) -> Result<(), Fail> {
    let run = streamed(&rt, rt.alloc(), &["demo", "10"], b"")?;
    assert_eq!(rt; run.status, Status::Finished);
    assert_eq!(rt; run.rounds, 3);
    assert_eq!(rt; run.text.as_slice(), SUMMARY);
    Ok(())
}

/// The first round's text stands, and nothing of the second one's.
#[test]
fn a_write_that_fails_in_the_second_round_keeps_the_first(rt: HostRuntime) -> Result<(), Fail> {
    let alloc = rt.alloc();
    let mut words = Vec::new(alloc);
    for word in ["run", "4", "16"] {
        words.push(String::from_str(alloc, word)?)?;
    }
    let script =
        b"local 10.0.0.254\nat 0\nipvs -A -t 10.0.0.1:80 -s rr\nat 1\nipvs -D -t 10.0.0.1:80\n";
    let mut source = MemSource::new(script.to_vec(alloc)?, 1000, Vec::new(alloc));
    let mut fails = Vec::new(alloc);
    fails.push(1)?;
    let mut sink = MemSink::new(alloc, 1000, 1000, fails)?;
    let done = serve(&rt, alloc, &words, &mut source, &mut sink, &OpenGate);
    assert_eq!(rt; done.status, Status::WriteFault);
    assert_eq!(rt; done.rounds.len(), 2);
    let first = done.rounds.first().ok_or("no round")?;
    assert_eq!(rt; sink.bytes(), print_round(alloc, first)?.as_slice());
    Ok(())
}

/// The first word that is missing, that isn't a number within its limits, or that is one too many.
#[test]
fn words_of_threads_are_refused(rt: HostRuntime) -> Result<(), Fail> {
    let alloc = rt.alloc();
    let rows: [(&[&str], usize); 8] = [
        (&["run", "4"], 2),
        (&["run", "0", "16"], 1),
        (&["run", "17", "16"], 1),
        (&["run", "4", "257"], 2),
        (&["run", "4", "16", "1"], 3),
        (&["demo"], 1),
        (&["demo", "100001"], 1),
        (&["pair", "1"], 0),
    ];
    for (words, at) in rows {
        let run = streamed(&rt, alloc, words, SCRIPT)?;
        assert_eq!(rt; run.status, Status::WordsRefused { at });
    }
    Ok(())
}
