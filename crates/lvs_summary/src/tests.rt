//! The lines of the summary of a book.
use crate::print_summary;
use lvs_types::{
    Addr, Bytes, Daemons, Dest, DestId, DestRow, DestSpec, DropCause, Item, Listed, Method,
    NoMemory, Noted, Reply, RoundBook, ServiceKey, Settings, Snapshot,
};
use std::alloc::Global;
use std::test::Fail;

const SERVER: Addr = Addr {
    number: 0xC0A8_0002,
};

fn noted(number: u64, item: Item, reply: Reply) -> Noted {
    Noted {
        actor: 3,
        number,
        item,
        reply,
    }
}

fn bytes(alloc: Global) -> Result<Bytes, NoMemory> {
    Ok(Bytes::copied(alloc, &[69])?)
}

fn arrival(alloc: Global) -> Result<Item, NoMemory> {
    Ok(Item::Incoming {
        mark: 0,
        bytes: bytes(alloc)?,
    })
}

/// Two packets came, of which one was sent on, and then a reap.
fn book(alloc: Global) -> Result<RoundBook, NoMemory> {
    let sent = Reply::Forward {
        method: Method::Masq,
        to: SERVER,
        bytes: bytes(alloc)?,
    };
    let mut acts = Vec::new(alloc);
    acts.push(noted(0, arrival(alloc)?, sent))?;
    acts.push(noted(1, arrival(alloc)?, Reply::Drop(DropCause::NoDest)))?;
    acts.push(noted(2, Item::Reap, Reply::Done))?;
    Ok(RoundBook {
        number: 0,
        moment: 0,
        workers: 1,
        buckets: 1,
        acts: Listed::from_vec(acts),
        shown: Listed::new(alloc),
    })
}

/// A server of one active and twelve inactive connections.
fn server() -> DestRow {
    DestRow {
        dest: Dest {
            id: DestId(1),
            service: ServiceKey::Mark(7),
            spec: DestSpec {
                addr: SERVER,
                port: 8080,
                method: Method::Masq,
                weight: 1,
                upper: 0,
                lower: 0,
            },
            overloaded: false,
            live: true,
        },
        active: 1,
        inactive: 12,
        templates: 0,
    }
}

fn tables(alloc: Global) -> Result<Snapshot, NoMemory> {
    let mut dests = Vec::new(alloc);
    dests.push(server())?;
    Ok(Snapshot {
        now: 0,
        local: SERVER,
        settings: Settings::initial(),
        daemons: Daemons {
            master: None,
            backup: None,
        },
        services: Listed::new(alloc),
        dests: Listed::from_vec(dests),
        templates: Listed::new(alloc),
        entries: Listed::new(alloc),
        pending: Listed::new(alloc),
    })
}

#[test]
fn tells_what_two_packets_did(rt: HostRuntime) -> Result<(), Fail> {
    let alloc = rt.alloc();
    let mut books = Vec::new(alloc);
    books.push(book(alloc)?)?;
    books.push(book(alloc)?)?;
    let text = print_summary(alloc, &books, &tables(alloc)?)?;
    assert_eq!(rt;
        text.as_slice(),
        b"rounds 2\npackets 4\nforwarded 2\nentries 0\nserver 192.168.0.2:8080 active 1 inactive 12\n".as_slice()
    );
    Ok(())
}
