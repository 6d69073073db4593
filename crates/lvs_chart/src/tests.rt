//! A report by hand to its counts, and reports and words that are refused.
use crate::{ChartStatus, fault_line, gather, serve_chart};
use lvs_outside::{MemSink, MemSource};
use lvs_report::read_report;
use lvs_types::NoMemory;
use std::alloc::Global;
use std::test::Fail;

/// How the call ended on that word and that report, and whether it wrote anything.
fn served(alloc: Global, word: &str, report: &[u8]) -> Result<(ChartStatus, bool), NoMemory> {
    let mut words = Vec::new(alloc);
    if !word.is_empty() {
        words.push(String::from_str(alloc, word)?)?;
    }
    let mut source = MemSource::new(report.to_vec(alloc)?, 5, Vec::new(alloc));
    let mut sink = MemSink::new(alloc, 700, 10000, Vec::new(alloc))?;
    let status = serve_chart(alloc, &words, &mut source, &mut sink);
    Ok((status, !sink.bytes().is_empty()))
}

#[test]
fn gathers_rounds_and_servers(rt: HostRuntime) -> Result<(), Fail> {
    let alloc = rt.alloc();
    let text =
        b"round 0 at 5 workers 1 buckets 1\n2 1.0 ok\n3 3.0 fwd direct 1.2.3.4 45\n4 3.1 drop nodest\nlist\nTCP 10.0.0.1:80 rr\n  -> 1.2.3.4:80 Route 1 2 3\nend\nround 1 at 9 workers 1 buckets 1\n0 0.0 swept 2\nlist\nTCP 10.0.0.1:80 rr\n  -> 1.2.3.5:80 Route 1 7 0\n  -> 1.2.3.4:80 Route 1 0 1\nend\n";
    let run = gather(alloc, read_report(alloc, text)?.as_slice())?;
    let mut told = Vec::new(alloc);
    for round in &run.rounds {
        told.push((
            round.moment,
            round.replies.total(),
            round.edited,
            round.swept,
        ))?;
    }
    assert_eq!(rt;
        told.as_slice(),
        [(5, 2, true, false), (9, 0, false, true)].as_slice()
    );
    let mut points = Vec::new(alloc);
    for server in &run.servers {
        points.push((server.points.len(), server.weight))?;
    }
    assert_eq!(rt; points.as_slice(), [(2, 6), (1, 7)].as_slice());
    Ok(())
}

#[test]
fn writes_nothing_where_it_refuses(rt: HostRuntime) -> Result<(), Fail> {
    let alloc = rt.alloc();
    let report = b"round 0 at 0 workers 1 buckets 1\n2 1.0 ok\n";
    assert_eq!(rt; served(alloc, "", report)?, (ChartStatus::Finished, true));
    assert_eq!(rt;
        served(alloc, "--help", b"")?,
        (ChartStatus::Finished, true)
    );
    assert_eq!(rt;
        served(alloc, "svg", report)?,
        (ChartStatus::WordsRefused { at: 0 }, false)
    );
    let refused = ChartStatus::ReportRefused { line: 3 };
    let report = b"round 0 at 0 workers 1 buckets 1\n2 1.0 ok\n\n";
    assert_eq!(rt; served(alloc, "", report)?, (refused, false));
    assert_eq!(rt;
        fault_line(alloc, refused)?.as_str(),
        "ipvsd_chart: report refused, line 3"
    );
    Ok(())
}
