//! What no contract says: each call has an answer where there is ample memory.
ghost use Rattle.std.specs.Prelude.{◌≡◌, IfOk};
ghost use Rattle.lvs_model.specs.Step.{IsInRange};

use crate::Core;
use lvs_types::{
    Addr, Bytes, Command, Cursor, DestSpec, Item, Method, NoMemory, Proto, Reply, Scheduler,
    Service, ServiceKey,
};
use std::alloc::Global;
use std::test::Fail;

/// The virtual address, 10.0.0.1.
const VIRTUAL: Addr = Addr {
    number: 0x0a00_0001,
};

/// The name service, 10.0.0.1:53.
const NAMES: ServiceKey = ServiceKey::Net {
    proto: Proto::Udp,
    addr: VIRTUAL,
    port: 53,
};

/// The server, 192.168.0.1.
const SERVER: Addr = Addr {
    number: 0xc0a8_0001,
};

/// The name service by turns.
fn serve() -> Item
    ensures { IsInRange result }
{
    Item::Edit(Command::AddService(Service {
        key: NAMES,
        scheduler: Scheduler::Rr,
        persist: None,
        mask_bits: 32,
        one_packet: false,
        cursor: Cursor { last: None, cw: 0 },
    }))
}

/// Its server, by direct routing.
fn add_server() -> Item
    ensures { IsInRange result }
{
    Item::Edit(Command::AddServer(
        NAMES,
        DestSpec {
            addr: SERVER,
            port: 53,
            method: Method::Direct,
            weight: 1,
            upper: 0,
            lower: 0,
        },
    ))
}

/// A datagram from 172.16.0.9:5353 to the name service.
fn datagram(alloc: Global) -> Result<Item, NoMemory>
    ensures { IfOk result IsInRange }
{
    let bytes = [
        0x45, 0, 0, 31, 0, 1, 0x40, 0, 0x40, 0x11, 0x84, 0xb3, 0xac, 0x10, 0, 9, 10, 0, 0, 1, 0x14,
        0xe9, 0, 0x35, 0, 11, 0, 0, 0, 0, 0,
    ];
    Ok(Item::Incoming {
        mark: 0,
        bytes: Bytes::copied(alloc, &bytes)?,
    })
}

/// The director of the same parts.
fn put_together_again(core: Core) -> Core
    ensures { result ≡ core }
{
    let (board, buckets) = core.into_parts();
    Core::from_parts(board, buckets)
}

/// How many entries a sweep of the bucket has ended.
fn swept(reply: &Reply) -> u64 {
    match reply {
        Reply::Swept(count) => *count,
        _ => 0,
    }
}

#[test]
fn a_connection_comes_and_is_swept(rt: HostRuntime) -> Result<(), Fail> {
    let alloc = rt.alloc();
    let mut core = Core::new(alloc, VIRTUAL, 2)?;
    core.step(alloc, &serve())?;
    core.step(alloc, &add_server())?;
    let reply = core.step(alloc, &datagram(alloc)?)?;
    assert!(rt; matches!(&reply, Reply::Forward { to, .. } if *to == SERVER));
    assert_eq!(rt; core.snapshot(alloc)?.entries.as_slice().len(), 1);
    let mut again = put_together_again(core);
    again.step(alloc, &Item::Tick(300))?;
    let first = again.step(alloc, &Item::Sweep(0))?;
    let second = again.step(alloc, &Item::Sweep(1))?;
    assert_eq!(rt; (swept(&first), swept(&second)), (0, 1));
    assert!(rt; again.snapshot(alloc)?.entries.as_slice().is_empty());
    assert_eq!(rt; again.steps(), 6);
    Ok(())
}
