//! Reports of three packets, judged through the top call.
use crate::exit_code;
use crate::tests::{REPORT, SCRIPT, served};
use lvs_types::NoMemory;
use std::alloc::Global;
use std::test::Fail;

/// The second packet goes to the first server.
const OTHER_SERVER: &[u8] =
    b"round 0 at 0 workers 1 buckets 1\n2 1.0 ok\n3 1.1 ok\n4 1.2 ok\n5 3.0 fwd direct 192.168.0.1 4500002800014000400684b5ac1000090a0000019c4000500000000000000000500220003d380000\n6 3.1 fwd direct 192.168.0.1 4500002800014000400684b5ac1000090a0000019c4100500000000000000000500220003d370000\n7 3.2 fwd direct 192.168.0.1 4500002800014000400684b5ac1000090a0000019c4200500000000000000000500220003d360000\n";

/// The sixth line is left out: the sending of nothing fills its place, and the worker's second item is
/// missing.
const LEFT_OUT: &[u8] =
    b"round 0 at 0 workers 1 buckets 1\n2 1.0 ok\n3 1.1 ok\n4 1.2 ok\n5 3.0 fwd direct 192.168.0.1 4500002800014000400684b5ac1000090a0000019c4000500000000000000000500220003d380000\n7 3.2 fwd direct 192.168.0.1 4500002800014000400684b5ac1000090a0000019c4200500000000000000000500220003d360000\n";

const ILLEGAL: &[u8] =
    b"illegal line 6\nexpected 6 3.1 fwd direct 192.168.0.2 4500002800014000400684b5ac1000090a0000019c4100500000000000000000500220003d370000\nfound 6 3.1 fwd direct 192.168.0.1 4500002800014000400684b5ac1000090a0000019c4100500000000000000000500220003d370000\n";

/// The script, and a report behind it.
fn input(alloc: Global, report: &[u8]) -> Result<Vec<u8>, NoMemory> {
    let mut all = SCRIPT.to_vec(alloc)?;
    all.extend_from_slice(b"report\n")?;
    all.extend_from_slice(report)?;
    Ok(all)
}

#[test]
fn each_report_has_its_verdict(rt: HostRuntime) -> Result<(), Fail> {
    let alloc = rt.alloc();
    let rows: [(&[u8], &[u8], u8); 3] = [
        (REPORT, b"legal\n", 0),
        (OTHER_SERVER, ILLEGAL, 7),
        (LEFT_OUT, b"unreadable line 6\n", 7),
    ];
    for (report, verdict, code) in rows {
        let run = served(alloc, &["check"], &input(alloc, report)?, &[], &[])?;
        assert_eq!(rt; run.text.as_slice(), verdict);
        assert_eq!(rt; exit_code(&run.status), code);
        assert_eq!(rt; run.rounds, 0);
    }
    Ok(())
}
