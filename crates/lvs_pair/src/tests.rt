//! What no contract says: what the calls answer where there is ample memory.
ghost use Rattle.std.specs.Prelude.{◌≡◌, ◌+◌, ◌≤◌, ◌<◌, ◌^◌, [], All, IfOk, OnOk, length};
ghost use Rattle.lvs_model.specs.Step.{IsInRange};
ghost use Rattle.lvs_pair.specs.Pairing.{IsStepInRange};

use crate::{Pair, relay, run_pair};
use lvs_core::Core;
use lvs_types::{
    Addr, Bytes, Command, Cursor, DestSpec, Item, Learnt, Listed, MasterStep, Method, NoMemory,
    PairEnd, Proto, Reply, Scheduler, Service, ServiceKey,
};
use std::alloc::Global;
use std::sync::Wait;
use std::test::Fail;
use std::thread::Threads;

/// The web service, 10.0.0.1:80.
const WEB: ServiceKey = ServiceKey::Net {
    proto: Proto::Tcp,
    addr: Addr {
        number: 0x0a00_0001,
    },
    port: 80,
};

/// 192.168.0.1 and 192.168.0.2.
const FIRST: Addr = Addr {
    number: 0xc0a8_0001,
};

const SECOND: Addr = Addr {
    number: 0xc0a8_0002,
};

const SYN: u8 = 0x02;

const ACK: u8 = 0x10;

/// The web service, by turns.
fn serve() -> Item
    ensures { IsInRange result }
{
    Item::Edit(Command::AddService(Service {
        key: WEB,
        scheduler: Scheduler::Rr,
        persist: None,
        mask_bits: 32,
        one_packet: false,
        cursor: Cursor { last: None, cw: 0 },
    }))
}

/// A server of it, by direct routing.
fn add_server(addr: Addr) -> Item
    ensures { IsInRange result }
{
    Item::Edit(Command::AddServer(
        WEB,
        DestSpec {
            addr,
            port: 80,
            method: Method::Direct,
            weight: 1,
            upper: 0,
            lower: 0,
        },
    ))
}

fn command(command: Command) -> Item
    ensures { IsInRange result }
{
    Item::Edit(command)
}

/// A packet from 172.16.0.9 and port 40,000 + `client` to the web service.
fn packet(alloc: Global, client: u8, flags: u8) -> Result<Item, NoMemory>
    requires { client < 64 }
    ensures { IfOk result IsInRange }
{
    let bytes = [
        0x45,
        0,
        0,
        40,
        0,
        1,
        0x40,
        0,
        0x40,
        6,
        0x84,
        0xb5,
        0xac,
        0x10,
        0,
        9,
        10,
        0,
        0,
        1,
        0x9c,
        0x40 + client,
        0,
        80,
        0,
        0,
        0,
        0,
        0,
        0,
        0,
        0,
        0x50,
        flags,
        0,
        0,
        0,
        0,
        0,
        0,
    ];
    Ok(Item::Incoming {
        mark: 0,
        bytes: Bytes::copied(alloc, &bytes)?,
    })
}

/// One step more.
fn add(steps: &mut Vec<MasterStep>, item: Item) -> Result<(), NoMemory>
    requires in_range { IsInRange item }
    requires steps { All IsStepInRange steps.old.items }
    ensures steps { OnOk result (All IsStepInRange steps.new.items) }
    ensures length { OnOk result (length steps.new.items ≡ length steps.old.items + 1) }
{
    steps.push(MasterStep::Do(item))?;
    Ok(())
}

/// A connection is made, and what is to be told of it is sent.
fn add_connection(alloc: Global, steps: &mut Vec<MasterStep>, client: u8) -> Result<(), NoMemory>
    requires client { client < 64 }
    requires steps { All IsStepInRange steps.old.items }
    ensures steps { OnOk result (All IsStepInRange steps.new.items) }
    ensures length { OnOk result (length steps.new.items ≡ length steps.old.items + 3) }
{
    add(steps, packet(alloc, client, SYN)?)?;
    add(steps, packet(alloc, client, ACK)?)?;
    add(steps, Item::SendSync)
}

/// What a master with one server begins with.
fn first_steps(alloc: Global) -> Result<Vec<MasterStep>, NoMemory>
    ensures steps { IfOk result (λ steps. All IsStepInRange steps.items) }
    ensures length { IfOk result (λ steps. length steps.items ≡ 3) }
{
    let mut steps = Vec::new(alloc);
    add(&mut steps, serve())?;
    add(&mut steps, add_server(FIRST))?;
    add(&mut steps, command(Command::StartMaster(7)))?;
    Ok(steps)
}

/// A master that makes one connection.
fn one_connection(alloc: Global) -> Result<Vec<MasterStep>, NoMemory>
    ensures steps { IfOk result (λ steps. All IsStepInRange steps.items) }
    ensures length { IfOk result (λ steps. length steps.items ≡ 6) }
{
    let mut steps = first_steps(alloc)?;
    add_connection(alloc, &mut steps, 0)?;
    Ok(steps)
}

/// A master that makes six connections.
fn six_connections(alloc: Global) -> Result<Vec<MasterStep>, NoMemory>
    ensures steps { IfOk result (λ steps. All IsStepInRange steps.items) }
    ensures length { IfOk result (λ steps. length steps.items ≡ 21) }
{
    let mut steps = one_connection(alloc)?;
    add_connection(alloc, &mut steps, 1)?;
    add_connection(alloc, &mut steps, 2)?;
    add_connection(alloc, &mut steps, 3)?;
    add_connection(alloc, &mut steps, 4)?;
    add_connection(alloc, &mut steps, 5)?;
    Ok(steps)
}

/// A backup whose turn would be another server's.
fn backup(alloc: Global) -> Result<Core, NoMemory>
    ensures { IfOk result (λ c. c.steps < 2 ^ 40) }
{
    let mut core = Core::new(alloc, SECOND, 1)?;
    core.step(alloc, &serve())?;
    core.step(alloc, &add_server(SECOND))?;
    core.step(alloc, &add_server(FIRST))?;
    core.step(alloc, &command(Command::StartBackup(7)))?;
    Ok(core)
}

/// How a master with these steps and its backup end, each message arriving so many times.
fn play<R: Threads + Wait + Sync>(
    rt: &R,
    alloc: Global,
    steps: Vec<MasterStep>,
    count: u8,
) -> Result<(Pair, PairEnd), NoMemory>
    requires steps { All IsStepInRange steps.items }
    requires few { length steps.items ≤ 21 }
{
    let pair = Pair {
        master: Core::new(alloc, FIRST, 1)?,
        steps: Listed::from_vec(steps),
        acts: Listed::new(alloc),
        backup: backup(alloc)?,
        learnt: Listed::new(alloc),
        counts: Bytes::copied(alloc, &[count])?,
    };
    let (relay, sender, receiver) = relay(alloc, 1024)?;
    let (pair, end, _) = run_pair(rt, alloc, pair, relay, sender, receiver);
    Ok((pair, end))
}

/// How many accepted records it has learnt.
fn accepted(learnt: &[(Item, Reply)]) -> usize {
    learnt
        .iter()
        .filter(|noted| matches!(&noted.1, Reply::Learnt(Learnt::Accepted)))
        .count()
}

/// Whether a message is this byte alone.
fn is(message: &Bytes, byte: u8) -> bool {
    matches!(message.as_slice(), [only] if *only == byte)
}

/// Whether a packet goes to this server.
fn goes_to(reply: &Reply, addr: Addr) -> bool {
    matches!(reply, Reply::Forward { to, .. } if *to == addr)
}

#[test]
fn a_full_relay_hands_back(rt: HostRuntime) -> Result<(), Fail> {
    let alloc = rt.alloc();
    let (relay, mut sender, mut receiver) = relay(alloc, 1)?;
    assert!(rt;
        sender
            .post(&rt, &relay, Bytes::copied(alloc, &[1])?)
            .is_ok()
    );
    let back = sender.post(&rt, &relay, Bytes::copied(alloc, &[2])?);
    assert!(rt; matches!(&back, Err(message) if is(message, 2)));
    let taken = receiver.take(&rt, &relay);
    assert!(rt; matches!(&taken, Some(message) if is(message, 1)));
    assert!(rt; receiver.take(&rt, &relay).is_none());
    assert!(rt;
        sender
            .post(&rt, &relay, Bytes::copied(alloc, &[3])?)
            .is_ok()
    );
    let mut rest = relay.finish(sender, receiver);
    let left = rest.next(&rt);
    assert!(rt; matches!(&left, Some(message) if is(message, 3)));
    assert!(rt; rest.next(&rt).is_none());
    Ok(())
}

/// How many records a backup learns of one connection, each message arriving so many times, and
/// whether a packet of it then goes to the master's server.
fn take_over<R: Threads + Wait + Sync>(
    rt: &R,
    alloc: Global,
    count: u8,
) -> Result<(usize, bool), NoMemory> {
    let (pair, _) = play(rt, alloc, one_connection(alloc)?, count)?;
    let mut backup = pair.backup;
    if backup.steps() >= 1 << 40 {
        return Err(NoMemory);
    }
    let reply = backup.step(alloc, &packet(alloc, 0, ACK)?)?;
    Ok((accepted(pair.learnt.as_slice()), goes_to(&reply, FIRST)))
}

/// A message that is lost leaves nothing, and one that comes again is learnt again. What was learnt goes
/// on with its server; what wasn't passes.
#[test]
fn a_backup_takes_over(rt: HostRuntime) -> Result<(), Fail> {
    let alloc = rt.alloc();
    assert_eq!(rt; take_over(&rt, alloc, 0)?, (0, false));
    assert_eq!(rt; take_over(&rt, alloc, 1)?, (1, true));
    assert_eq!(rt; take_over(&rt, alloc, 2)?, (2, true));
    Ok(())
}

/// Six messages, 250 times each, through a relay that holds 1,024.
#[test]
fn more_messages_than_a_relay_holds(rt: HostRuntime) -> Result<(), Fail> {
    let alloc = rt.alloc();
    let (pair, end) = play(&rt, alloc, six_connections(alloc)?, 250)?;
    assert_eq!(rt; end, PairEnd::Finished);
    assert_eq!(rt; pair.acts.as_slice().len(), 21);
    assert_eq!(rt; accepted(pair.learnt.as_slice()), 1500);
    Ok(())
}
