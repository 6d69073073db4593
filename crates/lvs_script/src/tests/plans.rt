//! Plans of rounds, and the script of a demonstration.
use crate::{generate, plan, read_script, serial_items};
use lvs_types::{Bytes, ScriptLine, Shown};
use std::test::Fail;

/// A SYN of 172.16.0.9, port 40000; a real server's answer to it; a SYN of port 40001; bytes that
/// are no packet; and the other kinds of lines.
fn round() -> &'static str {
    "at 9
in 0 4500002800014000400684b5ac1000090a0000019c4000500000000000000000500220003d380000
ipvs -C
sync 00
list
out 45000028000140004006ce0cc0a80001ac1000091f909c40000000000000000050122000673f0000
in 5 4500002800014000400684b5ac1000090a0000019c4100500000000000000000500220003d370000
sysctl sloppy_tcp 1
in 0 45
save
sync 0000
"
}

/// The worker of a packet is known from outside: 1 for port 40000, 3 for port 40001.
#[test]
fn plans_a_round(rt: HostRuntime) -> Result<(), Fail> {
    let alloc = rt.alloc();
    let script = read_script(alloc, round().as_bytes())?;
    let rounds = script.rounds.as_slice();
    assert_eq!(rt; rounds.len(), 1);
    let plan = plan(alloc, &rounds[0], 4, 2)?;
    assert_eq!(rt; plan.moment, 9);
    assert_eq!(rt; plan.buckets, 2);
    assert!(rt; matches!(plan.shown.as_slice(), [Shown::List, Shown::Save]));
    let lists = plan.lists.as_slice();
    let lengths = [4, 2, 2, 1, 2, 0, 1];
    assert_eq!(rt; lists.len(), lengths.len());
    for (list, length) in lists.iter().zip(lengths.iter()) {
        assert_eq!(rt; list.as_slice().len(), *length);
    }
    Ok(())
}

/// The actors and numbers of the same round in the order of `serial`.
#[test]
fn places_a_round(rt: HostRuntime) -> Result<(), Fail> {
    let alloc = rt.alloc();
    let script = read_script(alloc, round().as_bytes())?;
    let rounds = script.rounds.as_slice();
    assert_eq!(rt; rounds.len(), 1);
    let placed = serial_items(alloc, &rounds[0])?;
    let want = [
        (0, 0),
        (0, 1),
        (3, 0),
        (1, 0),
        (2, 0),
        (3, 1),
        (3, 2),
        (1, 1),
        (3, 3),
        (2, 1),
        (0, 2),
    ];
    assert_eq!(rt; placed.len(), want.len());
    for (item, (actor, number)) in placed.iter().zip(want.iter()) {
        assert_eq!(rt; item.actor, *actor);
        assert_eq!(rt; item.number, *number);
    }
    Ok(())
}

/// The script of two clients as a text.
fn two_clients() -> &'static str {
    "local 10.0.0.254
at 0
ipvs -A -t 10.0.0.1:80 -s rr
ipvs -a -t 10.0.0.1:80 -r 192.168.0.1:80 -m -w 1
ipvs -a -t 10.0.0.1:80 -r 192.168.0.2:80 -m -w 1
ipvs -a -t 10.0.0.1:80 -r 192.168.0.3:80 -m -w 1
ipvs -a -t 10.0.0.1:80 -r 192.168.0.4:80 -m -w 1
at 1
in 0 4500002800014000400626ce0a0100000a0000010400005000000000000000005002200077910000
in 0 4500002800014000400626cd0a0100010a00000104010050000000000000000050022000778f0000
at 2
in 0 4500002800014000400626ce0a0100000a0000010400005000000000000000005010200077830000
in 0 4500002800014000400626cd0a0100010a0000010401005000000000000000005010200077810000
"
}

/// The ACK of the last of 100,000 clients, 10.2.134.159, port 41023.
const LAST_ACK: [u8; 40] = [
    0x45, 0x00, 0x00, 0x28, 0x00, 0x01, 0x40, 0x00, 0x40, 0x06, 0xa0, 0x2d, 0x0a, 0x02, 0x86, 0x9f,
    0x0a, 0x00, 0x00, 0x01, 0xa0, 0x3f, 0x00, 0x50, 0x00, 0x00, 0x00, 0x00, 0x00, 0x00, 0x00, 0x00,
    0x50, 0x10, 0x20, 0x00, 0x54, 0xa3, 0x00, 0x00,
];

#[test]
fn generates_scripts(rt: HostRuntime) -> Result<(), Fail> {
    let alloc = rt.alloc();
    assert_eq!(rt;
        generate(alloc, 2)?,
        read_script(alloc, two_clients().as_bytes())?
    );
    let script = generate(alloc, 100_000)?;
    let rounds = script.rounds.as_slice();
    assert_eq!(rt; rounds.len(), 3);
    let acks = rounds[2].lines.as_slice();
    assert_eq!(rt; acks.len(), 100_000);
    let last = ScriptLine::Incoming {
        mark: 0,
        bytes: Bytes::copied(alloc, &LAST_ACK)?,
    };
    assert!(rt; acks[99_999] == last);
    Ok(())
}
