//! The verdicts on a report of three connections: as it is, with another server, and without a line.
ghost use Rattle.std.specs.Prelude.{◌≡◌, length, IfOk};
ghost use Rattle.lvs_model.specs.Plans.{items_of_line};
ghost use Rattle.lvs_model.specs.ScriptLimits.{IsWithinLimits};

use crate::check;
use lvs_types::{
    Addr, Bytes, Command, Cursor, DestSpec, Listed, Method, NoMemory, Proto, Round, Scheduler,
    Script, ScriptLine, Service, ServiceKey, Verdict,
};
use std::alloc::Global;
use std::test::Fail;

/// TCP 10.0.0.1:80.
const WEB: ServiceKey = ServiceKey::Net {
    proto: Proto::Tcp,
    addr: Addr {
        number: 0x0A00_0001,
    },
    port: 80,
};

fn service() -> ScriptLine
    ensures { length (items_of_line result) ≡ 1 }
{
    ScriptLine::Edit(Command::AddService(Service {
        key: WEB,
        scheduler: Scheduler::Rr,
        persist: None,
        mask_bits: 32,
        one_packet: false,
        cursor: Cursor { last: None, cw: 0 },
    }))
}

/// The real server 192.168.0.n.
fn server(n: u8) -> ScriptLine
    ensures { length (items_of_line result) ≡ 1 }
{
    let addr = Addr {
        number: 0xC0A8_0000 + u32::from(n),
    };
    ScriptLine::Edit(Command::AddServer(
        WEB,
        DestSpec {
            addr,
            port: 80,
            method: Method::Direct,
            weight: 1,
            upper: 0,
            lower: 0,
        },
    ))
}

/// A SYN of 172.16.0.9 from a port with this low byte, and the low byte of its checksum.
fn syn(alloc: Global, port: u8, sum: u8) -> Result<ScriptLine, NoMemory>
    ensures { IfOk result (λ line. length (items_of_line line) ≡ 1) }
{
    let bytes = [
        0x45, 0, 0, 0x28, 0, 1, 0x40, 0, 0x40, 6, 0x84, 0xB5, 0xAC, 0x10, 0, 9, 0x0A, 0, 0, 1,
        0x9C, port, 0, 0x50, 0, 0, 0, 0, 0, 0, 0, 0, 0x50, 2, 0x20, 0, 0x3D, sum, 0, 0,
    ];
    Ok(ScriptLine::Incoming {
        mark: 0,
        bytes: Bytes::copied(alloc, &bytes)?,
    })
}

/// A service with two servers, and three connections.
fn script(alloc: Global) -> Result<Script, NoMemory>
    ensures { IfOk result (λ script. IsWithinLimits script.rounds) }
{
    let lines = vec![in alloc;
        service(),
        server(1),
        server(2),
        syn(alloc, 0x40, 0x38)?,
        syn(alloc, 0x41, 0x37)?,
        syn(alloc, 0x42, 0x36)?,
    ]?;
    let rounds = vec![in alloc;
        Round {
            moment: 0,
            lines: Listed::from_vec(lines),
        },
    ]?;
    Ok(Script {
        local: Addr {
            number: 0x0A00_00FE,
        },
        rounds: Listed::from_vec(rounds),
    })
}

/// The report of `serial`.
const LEGAL: &[u8] =
    b"round 0 at 0 workers 1 buckets 1\n2 1.0 ok\n3 1.1 ok\n4 1.2 ok\n5 3.0 fwd direct 192.168.0.1 4500002800014000400684b5ac1000090a0000019c4000500000000000000000500220003d380000\n6 3.1 fwd direct 192.168.0.2 4500002800014000400684b5ac1000090a0000019c4100500000000000000000500220003d370000\n7 3.2 fwd direct 192.168.0.1 4500002800014000400684b5ac1000090a0000019c4200500000000000000000500220003d360000\n";

/// With another server at place 6.
const OTHER_SERVER: &[u8] =
    b"round 0 at 0 workers 1 buckets 1\n2 1.0 ok\n3 1.1 ok\n4 1.2 ok\n5 3.0 fwd direct 192.168.0.1 4500002800014000400684b5ac1000090a0000019c4000500000000000000000500220003d380000\n6 3.1 fwd direct 192.168.0.1 4500002800014000400684b5ac1000090a0000019c4100500000000000000000500220003d370000\n";

/// Without the line of place 6, which the clock's last item fills.
const LINE_LEFT_OUT: &[u8] =
    b"round 0 at 0 workers 1 buckets 1\n2 1.0 ok\n3 1.1 ok\n4 1.2 ok\n5 3.0 fwd direct 192.168.0.1 4500002800014000400684b5ac1000090a0000019c4000500000000000000000500220003d380000\n7 3.2 fwd direct 192.168.0.1 4500002800014000400684b5ac1000090a0000019c4200500000000000000000500220003d360000\n";

#[test]
fn tells_the_first_line_that_fails(rt: HostRuntime) -> Result<(), Fail> {
    let script = script(rt.alloc())?;
    assert_eq!(rt; check(rt.alloc(), &script, LEGAL)?, Verdict::Legal);
    assert_eq!(rt;
        check(rt.alloc(), &script, OTHER_SERVER)?,
        Verdict::Illegal {
            line: 6,
            expected: Bytes::copied(
                rt.alloc(),
                b"6 3.1 fwd direct 192.168.0.2 4500002800014000400684b5ac1000090a0000019c4100500000000000000000500220003d370000"
            )?,
            found: Bytes::copied(
                rt.alloc(),
                b"6 3.1 fwd direct 192.168.0.1 4500002800014000400684b5ac1000090a0000019c4100500000000000000000500220003d370000"
            )?,
        }
    );
    assert_eq!(rt;
        check(rt.alloc(), &script, LINE_LEFT_OUT)?,
        Verdict::Unreadable { line: 6 }
    );
    Ok(())
}
