//! Reports that are read, and reports whose first line outside the grammar has its number.
use crate::{ReportRefused, print_round, read_report};
use lvs_types::{
    Bytes, Item, Listed, NoMemory, Noted, Reply, ReportLine, RoundBook, Shown, ShownText,
};
use std::alloc::Global;
use std::test::Fail;

fn act(
    alloc: Global,
    place: u64,
    actor: u32,
    number: u64,
    reply: &[u8],
) -> Result<ReportLine, NoMemory> {
    Ok(ReportLine::Act {
        place,
        actor,
        number,
        reply: Bytes::copied(alloc, reply)?,
    })
}

fn listing(alloc: Global, kind: Shown, text: &[u8]) -> Result<ReportLine, NoMemory> {
    let text = Bytes::copied(alloc, text)?;
    Ok(ReportLine::Shown(ShownText { kind, text }))
}

#[test]
fn reads_heads_acts_and_listings(rt: HostRuntime) -> Result<(), Fail> {
    let alloc = rt.alloc();
    let text =
        b"round 0 at 100 workers 4 buckets 16\n0 0.0 swept 12\n7 1.3 ok\r\nlist\nTCP 10.0.0.1:80 wlc\n  -> 192.168.0.1:8080 Masq 2 1 0\nend\nconns\nend\nsave\nlist\n end\n7 1.3 ok\nend\nround 18446744073709551615 at 18446744073709551615 workers 4294967295 buckets 4294967295\n18446744073709551615 4294967295.18446744073709551615  \n";
    let expected = [
        ReportLine::Head {
            number: 0,
            moment: 100,
            workers: 4,
            buckets: 16,
        },
        act(alloc, 0, 0, 0, b"swept 12")?,
        act(alloc, 7, 1, 3, b"ok\r")?,
        listing(
            alloc,
            Shown::List,
            b"TCP 10.0.0.1:80 wlc\n  -> 192.168.0.1:8080 Masq 2 1 0\n",
        )?,
        listing(alloc, Shown::Conns, b"")?,
        listing(alloc, Shown::Save, b"list\n end\n7 1.3 ok\n")?,
        ReportLine::Head {
            number: u64::MAX,
            moment: u64::MAX,
            workers: u32::MAX,
            buckets: u32::MAX,
        },
        act(alloc, u64::MAX, u32::MAX, u64::MAX, b" ")?,
    ];
    let lines = read_report(alloc, text)?;
    assert_eq!(rt; lines.as_slice(), expected.as_slice());
    assert_eq!(rt; read_report(alloc, b"")?.len(), 0);
    Ok(())
}

#[test]
fn refuses_the_first_line_outside_the_grammar(rt: HostRuntime) {
    let alloc = rt.alloc();
    for (text, line) in [
        ("\n", 1),
        ("round 0 at 0 workers 1 buckets 1\n\n", 2),
        ("round 0 workers 1 buckets 1\n", 1),
        ("round 0 at 0 workers 1\n", 1),
        ("round 0 at 0 workers 1 buckets 1 \n", 1),
        ("round 0 at 0 workers 1 buckets 1\r\n", 1),
        ("round 0  at 0 workers 1 buckets 1\n", 1),
        ("round 00 at 0 workers 1 buckets 1\n", 1),
        ("round -1 at 0 workers 1 buckets 1\n", 1),
        ("round 0 at 18446744073709551616 workers 1 buckets 1\n", 1),
        ("round 0 at 0 workers 4294967296 buckets 1\n", 1),
        ("Round 0 at 0 workers 1 buckets 1\n", 1),
        ("0 1.0 ok\n1 1.1 ok\n2 1.02 ok\n", 3),
        ("0 1.0 ok\n1 1.1\nx\n", 2),
        ("0 1.0 \n", 1),
        ("0 1 0 ok\n", 1),
        (" 0 1.0 ok\n", 1),
        ("+0 1.0 ok\n", 1),
        ("18446744073709551616 1.0 ok\n", 1),
        ("0 4294967296.0 ok\n", 1),
        ("0 1.99999999999999999999 ok\n", 1),
        ("0 1.0 ok\n1 1.1 ok", 2),
        ("0 1.0 ok", 1),
        ("end\n", 1),
        ("list\nend\nend\n", 3),
        ("list \nend\n", 1),
        ("tables\nend\n", 1),
        ("list\n", 2),
        ("list\nx\ny\n", 4),
        ("list\nx\nend", 3),
        ("list\nx\nend\r\n", 4),
        ("list\nEND\n", 3),
        ("icmp in 45FF\nend\n", 1),
        ("icmp in 45f\nend\n", 1),
        ("icmp out \nend\n", 1),
        ("icmp up 45\nend\n", 1),
        ("icmp  in 45\nend\n", 1),
        ("icmp in 45\npass\n", 3),
    ] {
        let refused = match read_report(alloc, text.as_bytes()) {
            Err(ReportRefused::Unreadable { line }) => Some(line),
            _ => None,
        };
        assert_eq!(rt; refused, Some(line), "at {text:?}");
    }
}

#[test]
fn reads_a_printed_round(rt: HostRuntime) -> Result<(), Fail> {
    let alloc = rt.alloc();
    let mut acts = Vec::new(alloc);
    for (number, reply) in [(0, Reply::Swept(0)), (1, Reply::Done), (2, Reply::Pass)] {
        let item = Item::Reap;
        acts.push(Noted {
            actor: 1,
            number,
            item,
            reply,
        })?;
    }
    let mut shown = Vec::new(alloc);
    shown.push(ShownText {
        kind: Shown::Conns,
        text: Bytes::copied(alloc, b"ends\n\n")?,
    })?;
    shown.push(ShownText {
        kind: Shown::IcmpOut(Bytes::copied(alloc, &[0x45, 0xff])?),
        text: Bytes::copied(alloc, b"pass\n")?,
    })?;
    let book = RoundBook {
        number: 3,
        moment: 60,
        workers: 2,
        buckets: 8,
        acts: Listed::from_vec(acts),
        shown: Listed::from_vec(shown),
    };
    let expected = [
        ReportLine::Head {
            number: 3,
            moment: 60,
            workers: 2,
            buckets: 8,
        },
        act(alloc, 1, 1, 1, b"ok")?,
        act(alloc, 2, 1, 2, b"pass")?,
        listing(alloc, Shown::Conns, b"ends\n\n")?,
        listing(
            alloc,
            Shown::IcmpOut(Bytes::copied(alloc, &[0x45, 0xff])?),
            b"pass\n",
        )?,
    ];
    let text = print_round(alloc, &book)?;
    assert_eq!(rt;
        read_report(alloc, text.as_slice())?.as_slice(),
        expected.as_slice()
    );
    Ok(())
}
