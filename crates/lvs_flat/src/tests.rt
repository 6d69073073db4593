//! Whole scenarios of the director: each step with what it answers.
ghost use Rattle.std.specs.Prelude.{IfOk};
ghost use Rattle.lvs_model.specs.Step.{IsInRange};

use crate::Flat;
use lvs_types::{
    Addr, Bytes, Command, Cursor, DestSpec, DropCause, EditRefused, Item, Learnt, Method, NoMemory,
    Proto, Reply, Scheduler, Service, ServiceKey, Setting, SyncItem, SyncRecord,
};
use std::alloc::Global;
use std::test::Fail;

/// The virtual address, 10.0.0.1.
const VIRTUAL: Addr = Addr {
    number: 0x0a00_0001,
};

/// The web service, 10.0.0.1:80.
const WEB: ServiceKey = ServiceKey::Net {
    proto: Proto::Tcp,
    addr: VIRTUAL,
    port: 80,
};

/// The name service, 10.0.0.1:53.
const NAMES: ServiceKey = ServiceKey::Net {
    proto: Proto::Udp,
    addr: VIRTUAL,
    port: 53,
};

/// The web service at 10.0.0.2.
const OTHER: ServiceKey = ServiceKey::Net {
    proto: Proto::Tcp,
    addr: Addr {
        number: 0x0a00_0002,
    },
    port: 80,
};

/// What the director is given. Servers are 192.168.0.n, and packets come from 172.16.0.9.
#[derive(Clone, Copy, Debug)]
enum Given {
    /// A service by this scheduler.
    Serve(ServiceKey, Scheduler),
    /// The web service by turns, whose templates last so many seconds.
    Persist(u32),
    /// A direct server of the web service, of this weight.
    Add(u32, u32),
    /// One with an upper and a lower threshold.
    Limit(u32, u32, u32),
    /// A server of a service by this method and port.
    AddTo(ServiceKey, u32, Method, u16),
    /// The server of the web service gets this weight.
    Weigh(u32, u32),
    /// The server leaves the web service.
    Remove(u32),
    Edit(Command),
    Set(Setting),
    /// TCP packets of this port to the web service.
    Syn(u16),
    Ack(u16),
    Fin(u16),
    Reset(u16),
    /// A SYN of 65,516 bytes.
    LongSyn(u16),
    /// The same SYN with a mark.
    Marked(u32, u16),
    /// A SYN of port 40000 to 10.0.0.2:80.
    SynToOther,
    /// The answer of 192.168.0.1:8080 to port 40000.
    Answer,
    /// A datagram of so many bytes to the name service.
    Datagram(u16),
    /// A record of port 40000 of the web service, Established, at this server by direct routing.
    Learn(u32),
    Tick(u32),
    Sweep,
    Reap,
    Send,
}

/// What it answers.
#[derive(Clone, Copy, Debug, PartialEq, Eq)]
enum Says {
    /// Forwarded to 192.168.0.n.
    To(u32),
    /// Sent out from 10.0.0.n.
    From(u8),
    Passed,
    Dropped(DropCause),
    Done,
    Refused(EditRefused),
    Learnt(Learnt),
    Ticked,
    Swept(u64),
    Reaped(u64, u64, u64),
    /// So many messages.
    Sent(usize),
    /// An answer that no scenario here has.
    Other,
}

fn server(n: u32) -> Addr {
    Addr {
        number: 0xc0a8_0000 | (n & 0xff),
    }
}

fn spec(n: u32, port: u16, method: Method, weight: u32, upper: u32, lower: u32) -> DestSpec {
    DestSpec {
        addr: server(n),
        port,
        method,
        weight,
        upper,
        lower,
    }
}

fn service(key: ServiceKey, scheduler: Scheduler, persist: Option<u32>) -> Item
    ensures { IsInRange result }
{
    Item::Edit(Command::AddService(Service {
        key,
        scheduler,
        persist,
        mask_bits: 32,
        one_packet: false,
        cursor: Cursor { last: None, cw: 0 },
    }))
}

/// A TCP packet to port 80 of 10.0.0.n, 1 or 2: of 40 bytes, or of 65,516 to 10.0.0.1. Its TCP
/// checksum isn't looked at.
fn tcp(alloc: Global, port: u16, n: u8, flags: u8, total: u16) -> Result<Bytes, NoMemory> {
    let port = port.to_be_bytes();
    let length = total.to_be_bytes();
    let sum = match (total, n) {
        (65516, _) => 0xf0,
        (_, 1) => 0xb5,
        _ => 0xb4,
    };
    let head = [
        0x45, 0, length[0], length[1], 0, 1, 0x40, 0, 0x40, 6, 0x84, sum, 0xac, 0x10, 0, 9, 10, 0,
        0, n, port[0], port[1], 0, 80, 0, 0, 0, 0, 0, 0, 0, 0, 0x50, flags, 0x20, 0, 0, 0, 0, 0,
    ];
    let mut bytes = Bytes::copied(alloc, &head)?.into_vec();
    bytes.resize(usize::from(total), 0)?;
    Ok(Bytes::from_vec(bytes))
}

/// A SYN of 65,516 bytes to port 80 of 10.0.0.1.
fn long_syn(alloc: Global, port: u16) -> Result<Item, NoMemory>
    ensures { IfOk result IsInRange }
{
    Ok(Item::Incoming {
        mark: 0,
        bytes: tcp(alloc, port, 1, 2, 65516)?,
    })
}

fn incoming(alloc: Global, port: u16, n: u8, flags: u8, mark: u32) -> Result<Item, NoMemory>
    ensures { IfOk result IsInRange }
{
    Ok(Item::Incoming {
        mark,
        bytes: tcp(alloc, port, n, flags, 40)?,
    })
}

/// A datagram of 31, 65,515 or 65,516 bytes to the name service, without a UDP checksum.
fn datagram(alloc: Global, total: u16) -> Result<Item, NoMemory>
    ensures { IfOk result IsInRange }
{
    let length = total.to_be_bytes();
    let sum = match total {
        65516 => 0xe5,
        65515 => 0xe6,
        _ => 0xb3,
    };
    let udp = total.saturating_sub(20).to_be_bytes();
    let head = [
        0x45, 0, length[0], length[1], 0, 1, 0x40, 0, 0x40, 0x11, 0x84, sum, 0xac, 0x10, 0, 9, 10,
        0, 0, 1, 0x14, 0xe9, 0, 0x35, udp[0], udp[1], 0, 0,
    ];
    let mut bytes = Bytes::copied(alloc, &head)?.into_vec();
    bytes.resize(usize::from(total), 0)?;
    Ok(Item::Incoming {
        mark: 0,
        bytes: Bytes::from_vec(bytes),
    })
}

fn answer(alloc: Global) -> Result<Item, NoMemory>
    ensures { IfOk result IsInRange }
{
    let bytes = [
        0x45, 0, 0, 40, 0, 1, 0x40, 0, 0x40, 6, 0xce, 0x0c, 0xc0, 0xa8, 0, 1, 0xac, 0x10, 0, 9,
        0x1f, 0x90, 0x9c, 0x40, 0, 0, 0, 0, 0, 0, 0, 0, 0x50, 0x12, 0x20, 0, 0x67, 0x3f, 0, 0,
    ];
    Ok(Item::Outgoing {
        bytes: Bytes::copied(alloc, &bytes)?,
    })
}

fn learn(n: u32) -> Item
    ensures { IsInRange result }
{
    Item::Learn {
        sync_id: 7,
        item: SyncItem::V4(SyncRecord {
            code: 6,
            flags: 3,
            state: 1,
            cport: 40000,
            vport: 80,
            dport: 80,
            mark: 0,
            timeout: 900,
            caddr: Addr {
                number: 0xac10_0009,
            },
            vaddr: VIRTUAL,
            daddr: server(n),
        }),
    }
}

fn item(alloc: Global, given: Given) -> Result<Item, NoMemory>
    ensures { IfOk result IsInRange }
{
    Ok(match given {
        Given::Serve(key, scheduler) => service(key, scheduler, None),
        Given::Persist(seconds) => service(WEB, Scheduler::Rr, Some(seconds)),
        Given::Add(n, weight) => Item::Edit(Command::AddServer(
            WEB,
            spec(n, 80, Method::Direct, weight, 0, 0),
        )),
        Given::Limit(n, upper, lower) => Item::Edit(Command::AddServer(
            WEB,
            spec(n, 80, Method::Direct, 1, upper, lower),
        )),
        Given::AddTo(key, n, method, port) => {
            Item::Edit(Command::AddServer(key, spec(n, port, method, 1, 0, 0)))
        }
        Given::Weigh(n, weight) => Item::Edit(Command::EditServer(
            WEB,
            spec(n, 80, Method::Direct, weight, 0, 0),
        )),
        Given::Remove(n) => Item::Edit(Command::RemoveServer(WEB, server(n), 80)),
        Given::Edit(command) => Item::Edit(command),
        Given::Set(setting) => Item::Set(setting),
        Given::Syn(port) => incoming(alloc, port, 1, 2, 0)?,
        Given::Ack(port) => incoming(alloc, port, 1, 16, 0)?,
        Given::Fin(port) => incoming(alloc, port, 1, 1, 0)?,
        Given::LongSyn(port) => long_syn(alloc, port)?,
        Given::Reset(port) => incoming(alloc, port, 1, 4, 0)?,
        Given::Marked(mark, port) => incoming(alloc, port, 1, 2, mark)?,
        Given::SynToOther => incoming(alloc, 40000, 2, 2, 0)?,
        Given::Answer => answer(alloc)?,
        Given::Datagram(total) => datagram(alloc, total)?,
        Given::Learn(n) => learn(n),
        Given::Tick(moment) => Item::Tick(u64::from(moment)),
        Given::Sweep => Item::Sweep(0),
        Given::Reap => Item::Reap,
        Given::Send => Item::SendSync,
    })
}

fn said(reply: &Reply) -> Says {
    match reply {
        Reply::Forward { to, .. } => Says::To(to.number & 0xff),
        Reply::Outward(bytes) => match bytes.as_slice().get(15) {
            Some(n) => Says::From(*n),
            None => Says::Other,
        },
        Reply::Pass => Says::Passed,
        Reply::Drop(cause) => Says::Dropped(*cause),
        Reply::Done => Says::Done,
        Reply::Refused(cause) => Says::Refused(*cause),
        Reply::Learnt(answer) => Says::Learnt(*answer),
        Reply::Ticked => Says::Ticked,
        Reply::Swept(count) => Says::Swept(*count),
        Reply::Reaped {
            templates,
            renewed,
            servers,
        } => Says::Reaped(*templates, *renewed, *servers),
        Reply::Sent(messages) => Says::Sent(messages.as_slice().len()),
        Reply::BadMessage(_) => Says::Other,
    }
}

/// A scenario of the director.
#[derive(Clone, Copy, Debug)]
struct Scenario {
    name: &'static str,
    steps: &'static [(Given, Says)],
}

/// The name service, whose datagrams make no connections.
const ONE_PACKET: Service = Service {
    key: NAMES,
    scheduler: Scheduler::Rr,
    persist: None,
    mask_bits: 32,
    one_packet: true,
    cursor: Cursor { last: None, cw: 0 },
};

/// Each rule in an ordinary scenario.
const RULES: &[Scenario] = &[
    Scenario {
        name: "servers take turns",
        steps: &[
            (Given::Serve(WEB, Scheduler::Rr), Says::Done),
            (Given::Add(1, 1), Says::Done),
            (Given::Add(2, 1), Says::Done),
            (Given::Syn(40000), Says::To(1)),
            (Given::Syn(40001), Says::To(2)),
            (Given::Syn(40002), Says::To(1)),
        ],
    },
    Scenario {
        name: "by weight 4, 3 and 2",
        steps: &[
            (Given::Serve(WEB, Scheduler::Wrr), Says::Done),
            (Given::Add(1, 4), Says::Done),
            (Given::Add(2, 3), Says::Done),
            (Given::Add(3, 2), Says::Done),
            (Given::Syn(1), Says::To(1)),
            (Given::Syn(2), Says::To(1)),
            (Given::Syn(3), Says::To(2)),
            (Given::Syn(4), Says::To(1)),
            (Given::Syn(5), Says::To(2)),
            (Given::Syn(6), Says::To(3)),
            (Given::Syn(7), Says::To(1)),
            (Given::Syn(8), Says::To(2)),
            (Given::Syn(9), Says::To(3)),
        ],
    },
    Scenario {
        name: "wlc: the first added wins a tie",
        steps: &[
            (Given::Serve(WEB, Scheduler::Wlc), Says::Done),
            (Given::Add(1, 1), Says::Done),
            (Given::Add(2, 2), Says::Done),
            (Given::Syn(1), Says::To(1)),
            (Given::Syn(2), Says::To(2)),
            (Given::Syn(3), Says::To(2)),
            (Given::Syn(4), Says::To(1)),
        ],
    },
    Scenario {
        name: "sed",
        steps: &[
            (Given::Serve(WEB, Scheduler::Sed), Says::Done),
            (Given::Add(1, 1), Says::Done),
            (Given::Add(2, 2), Says::Done),
            (Given::Syn(1), Says::To(2)),
            (Given::Syn(2), Says::To(2)),
            (Given::Syn(3), Says::To(2)),
            (Given::Syn(4), Says::To(2)),
        ],
    },
    Scenario {
        name: "nq",
        steps: &[
            (Given::Serve(WEB, Scheduler::Nq), Says::Done),
            (Given::Add(1, 1), Says::Done),
            (Given::Add(2, 2), Says::Done),
            (Given::Syn(1), Says::To(1)),
            (Given::Syn(2), Says::To(1)),
            (Given::Syn(3), Says::To(1)),
            (Given::Syn(4), Says::To(1)),
        ],
    },
    Scenario {
        name: "overload from 4 on, cleared below 3",
        steps: &[
            (Given::Serve(WEB, Scheduler::Rr), Says::Done),
            (Given::Limit(1, 4, 0), Says::Done),
            (Given::Syn(1), Says::To(1)),
            (Given::Tick(10), Says::Ticked),
            (Given::Syn(2), Says::To(1)),
            (Given::Tick(20), Says::Ticked),
            (Given::Syn(3), Says::To(1)),
            (Given::Syn(4), Says::To(1)),
            (Given::Syn(5), Says::Dropped(DropCause::NoDest)),
            (Given::Tick(60), Says::Ticked),
            (Given::Sweep, Says::Swept(1)),
            (Given::Syn(6), Says::Dropped(DropCause::NoDest)),
            (Given::Tick(70), Says::Ticked),
            (Given::Sweep, Says::Swept(1)),
            (Given::Syn(7), Says::To(1)),
        ],
    },
    Scenario {
        name: "a removed server's connections wait for it",
        steps: &[
            (Given::Serve(WEB, Scheduler::Rr), Says::Done),
            (Given::Add(1, 1), Says::Done),
            (Given::Syn(40000), Says::To(1)),
            (Given::Remove(1), Says::Done),
            (Given::Ack(40000), Says::Dropped(DropCause::Gone)),
            (Given::Add(1, 1), Says::Done),
            (Given::Ack(40000), Says::To(1)),
        ],
    },
    Scenario {
        name: "or end with the first packet",
        steps: &[
            (Given::Set(Setting::ExpireNodest(1)), Says::Done),
            (Given::Serve(WEB, Scheduler::Rr), Says::Done),
            (Given::Add(1, 1), Says::Done),
            (Given::Syn(40000), Says::To(1)),
            (Given::Remove(1), Says::Done),
            (Given::Ack(40000), Says::Dropped(DropCause::Gone)),
            (Given::Ack(40000), Says::Passed),
        ],
    },
    Scenario {
        name: "a datagram's entry is due at 300",
        steps: &[
            (Given::Serve(NAMES, Scheduler::Rr), Says::Done),
            (Given::AddTo(NAMES, 1, Method::Direct, 53), Says::Done),
            (Given::Datagram(31), Says::To(1)),
            (Given::Tick(299), Says::Ticked),
            (Given::Sweep, Says::Swept(0)),
            (Given::Tick(300), Says::Ticked),
            (Given::Sweep, Says::Swept(1)),
        ],
    },
    Scenario {
        name: "too long for the tunnel, and the turn stays",
        steps: &[
            (Given::Serve(NAMES, Scheduler::Rr), Says::Done),
            (Given::AddTo(NAMES, 1, Method::Tunnel, 53), Says::Done),
            (Given::AddTo(NAMES, 2, Method::Tunnel, 53), Says::Done),
            (Given::Datagram(65516), Says::Dropped(DropCause::TooLong)),
            (Given::Datagram(65515), Says::To(1)),
        ],
    },
    Scenario {
        name: "a due template waits for its connection",
        steps: &[
            (Given::Persist(300), Says::Done),
            (Given::Add(1, 1), Says::Done),
            (Given::Syn(40000), Says::To(1)),
            (Given::Tick(30), Says::Ticked),
            (Given::Ack(40000), Says::To(1)),
            (Given::Tick(300), Says::Ticked),
            (Given::Sweep, Says::Swept(0)),
            (Given::Reap, Says::Reaped(0, 1, 0)),
            (Given::Tick(305), Says::Ticked),
            (Given::Reset(40000), Says::To(1)),
            (Given::Tick(360), Says::Ticked),
            (Given::Sweep, Says::Swept(1)),
            (Given::Reap, Says::Reaped(1, 0, 0)),
        ],
    },
    Scenario {
        name: "a backup takes connections over",
        steps: &[
            (Given::Serve(WEB, Scheduler::Wlc), Says::Done),
            (Given::Add(2, 1), Says::Done),
            (Given::Add(1, 1), Says::Done),
            (Given::Edit(Command::StartBackup(8)), Says::Done),
            (Given::Learn(1), Says::Learnt(Learnt::OtherId)),
            (Given::Edit(Command::StopBackup), Says::Done),
            (Given::Edit(Command::StartBackup(0)), Says::Done),
            (Given::Learn(1), Says::Learnt(Learnt::Accepted)),
            (Given::Ack(40000), Says::To(1)),
        ],
    },
    Scenario {
        name: "a SYN takes up a connection in TIME_WAIT",
        steps: &[
            (Given::Serve(WEB, Scheduler::Rr), Says::Done),
            (Given::Add(1, 1), Says::Done),
            (Given::Add(2, 1), Says::Done),
            (Given::Syn(40000), Says::To(1)),
            (Given::Fin(40000), Says::To(1)),
            (Given::Syn(40000), Says::To(2)),
        ],
    },
    Scenario {
        name: "not in reuse mode 0",
        steps: &[
            (Given::Set(Setting::ReuseMode(0)), Says::Done),
            (Given::Serve(WEB, Scheduler::Rr), Says::Done),
            (Given::Add(1, 1), Says::Done),
            (Given::Add(2, 1), Says::Done),
            (Given::Syn(40000), Says::To(1)),
            (Given::Fin(40000), Says::To(1)),
            (Given::Syn(40000), Says::To(1)),
        ],
    },
    Scenario {
        name: "two entries of one reply: the older answers",
        steps: &[
            (Given::Serve(WEB, Scheduler::Rr), Says::Done),
            (Given::AddTo(WEB, 1, Method::Masq, 8080), Says::Done),
            (Given::Serve(OTHER, Scheduler::Rr), Says::Done),
            (Given::AddTo(OTHER, 1, Method::Masq, 8080), Says::Done),
            (Given::Syn(40000), Says::To(1)),
            (Given::SynToOther, Says::To(1)),
            (Given::Answer, Says::From(1)),
        ],
    },
    Scenario {
        name: "without weight a server keeps its connections",
        steps: &[
            (Given::Serve(WEB, Scheduler::Rr), Says::Done),
            (Given::Add(1, 1), Says::Done),
            (Given::Syn(40000), Says::To(1)),
            (Given::Weigh(1, 0), Says::Done),
            (Given::Ack(40000), Says::To(1)),
            (Given::Syn(40001), Says::Dropped(DropCause::NoDest)),
        ],
    },
    Scenario {
        name: "a removed server is released once nothing names it",
        steps: &[
            (Given::Serve(WEB, Scheduler::Rr), Says::Done),
            (Given::Add(1, 1), Says::Done),
            (Given::Syn(40000), Says::To(1)),
            (Given::Remove(1), Says::Done),
            (Given::Tick(60), Says::Ticked),
            (Given::Sweep, Says::Swept(1)),
            (Given::Reap, Says::Reaped(0, 0, 1)),
        ],
    },
    Scenario {
        name: "sh: slot 23",
        steps: &[
            (Given::Serve(WEB, Scheduler::Sh), Says::Done),
            (Given::Add(1, 1), Says::Done),
            (Given::Add(2, 1), Says::Done),
            (Given::Syn(40000), Says::To(2)),
            (Given::Syn(40001), Says::To(2)),
        ],
    },
    Scenario {
        name: "dh: slot 136",
        steps: &[
            (Given::Serve(WEB, Scheduler::Dh), Says::Done),
            (Given::Add(1, 1), Says::Done),
            (Given::Add(2, 1), Says::Done),
            (Given::Add(3, 1), Says::Done),
            (Given::Syn(40000), Says::To(2)),
        ],
    },
    Scenario {
        name: "refusals",
        steps: &[
            (Given::Add(1, 1), Says::Refused(EditRefused::NoService)),
            (Given::Serve(WEB, Scheduler::Rr), Says::Done),
            (
                Given::Serve(WEB, Scheduler::Rr),
                Says::Refused(EditRefused::Exists),
            ),
            (
                Given::Limit(1, 2, 3),
                Says::Refused(EditRefused::Thresholds),
            ),
            (Given::Remove(1), Says::Refused(EditRefused::NoDest)),
            (
                Given::Edit(Command::StopMaster),
                Says::Refused(EditRefused::NotRunning),
            ),
        ],
    },
    Scenario {
        name: "a packet of no connection",
        steps: &[
            (Given::Serve(WEB, Scheduler::Rr), Says::Done),
            (Given::Add(1, 1), Says::Done),
            (Given::Ack(40000), Says::Passed),
        ],
    },
];

/// Where rules meet.
const CORNERS: &[Scenario] = &[
    Scenario {
        name: "an unbound entry meets its server later",
        steps: &[
            (Given::Edit(Command::StartBackup(0)), Says::Done),
            (Given::Learn(1), Says::Learnt(Learnt::Accepted)),
            (Given::Ack(40000), Says::To(1)),
            (Given::Serve(WEB, Scheduler::Rr), Says::Done),
            (Given::Add(1, 1), Says::Done),
            (Given::Ack(40000), Says::To(1)),
            (Given::Remove(1), Says::Done),
            (Given::Ack(40000), Says::Dropped(DropCause::Gone)),
        ],
    },
    Scenario {
        name: "a SYN too long for the tunnel takes no connection's place",
        steps: &[
            (Given::Serve(WEB, Scheduler::Rr), Says::Done),
            (Given::AddTo(WEB, 1, Method::Tunnel, 80), Says::Done),
            (Given::AddTo(WEB, 2, Method::Tunnel, 80), Says::Done),
            (Given::Syn(40000), Says::To(1)),
            (Given::Fin(40000), Says::To(1)),
            (Given::LongSyn(40000), Says::Dropped(DropCause::TooLong)),
            (Given::Ack(40000), Says::To(1)),
            (Given::Syn(40000), Says::To(2)),
        ],
    },
    Scenario {
        name: "a template whose server came back",
        steps: &[
            (Given::Persist(300), Says::Done),
            (Given::Add(1, 1), Says::Done),
            (Given::Add(2, 1), Says::Done),
            (Given::Syn(1), Says::To(1)),
            (Given::Remove(1), Says::Done),
            (Given::Add(1, 1), Says::Done),
            (Given::Syn(2), Says::To(1)),
        ],
    },
    Scenario {
        name: "a template whose server came back too late",
        steps: &[
            (Given::Persist(300), Says::Done),
            (Given::Add(1, 1), Says::Done),
            (Given::Add(2, 1), Says::Done),
            (Given::Syn(1), Says::To(1)),
            (Given::Remove(1), Says::Done),
            (Given::Syn(2), Says::To(2)),
            (Given::Add(1, 1), Says::Done),
            (Given::Syn(3), Says::To(2)),
        ],
    },
    Scenario {
        name: "a record with another server",
        steps: &[
            (Given::Serve(WEB, Scheduler::Rr), Says::Done),
            (Given::Add(1, 1), Says::Done),
            (Given::Add(2, 1), Says::Done),
            (Given::Edit(Command::StartBackup(0)), Says::Done),
            (Given::Syn(40000), Says::To(1)),
            (Given::Learn(2), Says::Learnt(Learnt::Accepted)),
            (Given::Ack(40000), Says::To(2)),
        ],
    },
    Scenario {
        name: "pending records are sent",
        steps: &[
            (Given::Edit(Command::StartMaster(7)), Says::Done),
            (Given::Serve(WEB, Scheduler::Rr), Says::Done),
            (Given::Add(1, 1), Says::Done),
            (Given::Syn(40000), Says::To(1)),
            (Given::Ack(40000), Says::To(1)),
            (Given::Send, Says::Sent(1)),
            (Given::Send, Says::Sent(0)),
        ],
    },
    Scenario {
        name: "and dropped where the master stops",
        steps: &[
            (Given::Edit(Command::StartMaster(7)), Says::Done),
            (Given::Serve(WEB, Scheduler::Rr), Says::Done),
            (Given::Add(1, 1), Says::Done),
            (Given::Syn(40000), Says::To(1)),
            (Given::Ack(40000), Says::To(1)),
            (Given::Edit(Command::StopMaster), Says::Done),
            (Given::Edit(Command::StartMaster(7)), Says::Done),
            (Given::Send, Says::Sent(0)),
        ],
    },
    Scenario {
        name: "a mark goes before an address",
        steps: &[
            (Given::Serve(WEB, Scheduler::Rr), Says::Done),
            (Given::Add(1, 1), Says::Done),
            (Given::Serve(ServiceKey::Mark(5), Scheduler::Rr), Says::Done),
            (
                Given::AddTo(ServiceKey::Mark(5), 2, Method::Direct, 80),
                Says::Done,
            ),
            (Given::Marked(5, 40000), Says::To(2)),
            (Given::Marked(6, 40001), Says::To(1)),
            (Given::Syn(40002), Says::To(1)),
        ],
    },
    Scenario {
        name: "expire_nodest_conn ends a connection without weight at its SYN",
        steps: &[
            (Given::Set(Setting::ExpireNodest(1)), Says::Done),
            (Given::Serve(WEB, Scheduler::Rr), Says::Done),
            (Given::Add(1, 1), Says::Done),
            (Given::Syn(1), Says::To(1)),
            (Given::Weigh(1, 0), Says::Done),
            (Given::Ack(1), Says::To(1)),
            (Given::Syn(1), Says::Dropped(DropCause::NoDest)),
            (Given::Ack(1), Says::Passed),
        ],
    },
    Scenario {
        name: "each datagram of a one-packet service is scheduled",
        steps: &[
            (Given::Edit(Command::AddService(ONE_PACKET)), Says::Done),
            (Given::AddTo(NAMES, 1, Method::Direct, 53), Says::Done),
            (Given::AddTo(NAMES, 2, Method::Direct, 53), Says::Done),
            (Given::Datagram(31), Says::To(1)),
            (Given::Datagram(31), Says::To(2)),
            (Given::Tick(300), Says::Ticked),
            (Given::Sweep, Says::Swept(0)),
        ],
    },
];

fn step(alloc: Global, flat: &mut Flat, item: &Item) -> Result<Says, NoMemory>
    requires { IsInRange item.now }
{
    if flat.steps() < 1000 {
        Ok(said(&flat.step(alloc, item)?))
    } else {
        Ok(Says::Other)
    }
}

/// The first step of the course that was answered otherwise, with its answer.
fn first_other(alloc: Global, course: Scenario) -> Result<Option<(usize, Says)>, NoMemory> {
    let mut flat = Flat::new(
        alloc,
        Addr {
            number: 0x0a00_00fe,
        },
        1,
    )?;
    for (place, (given, says)) in course.steps.iter().enumerate() {
        let item = item(alloc, *given)?;
        let answer = step(alloc, &mut flat, &item)?;
        if answer != *says {
            return Ok(Some((place, answer)));
        }
    }
    Ok(None)
}

#[test]
fn the_rules_hold(rt: HostRuntime) -> Result<(), Fail> {
    for course in RULES {
        let other = first_other(rt.alloc(), *course)?;
        assert_eq!(rt; (course.name, other), (course.name, None));
    }
    Ok(())
}

#[test]
fn the_rules_meet(rt: HostRuntime) -> Result<(), Fail> {
    for course in CORNERS {
        let other = first_other(rt.alloc(), *course)?;
        assert_eq!(rt; (course.name, other), (course.name, None));
    }
    Ok(())
}

#[test]
fn a_snapshot_shows_what_is_kept(rt: HostRuntime) -> Result<(), Fail> {
    let mut flat = Flat::new(rt.alloc(), VIRTUAL, 1)?;
    let given = [
        Given::Serve(WEB, Scheduler::Rr),
        Given::Add(1, 1),
        Given::Add(2, 1),
        Given::Syn(40000),
        Given::Remove(1),
        Given::Serve(NAMES, Scheduler::Rr),
        Given::Syn(40001),
        Given::Ack(40001),
    ];
    for given in given {
        let item = item(rt.alloc(), given)?;
        step(rt.alloc(), &mut flat, &item)?;
    }
    let shown = flat.snapshot(rt.alloc())?;
    let keys: [ServiceKey; 2] = [WEB, NAMES];
    assert_eq!(rt; shown.services.as_slice().len(), keys.len());
    let dests = shown.dests.as_slice();
    assert_eq!(rt; dests.len(), 2);
    assert_eq!(rt; dests[0].dest.spec.addr, server(2));
    assert_eq!(rt; (dests[0].active, dests[0].inactive), (1, 0));
    assert_eq!(rt; dests[1].dest.live, false);
    assert_eq!(rt; (dests[1].active, dests[1].inactive), (0, 1));
    assert_eq!(rt; shown.entries.as_slice().len(), 2);
    Ok(())
}
