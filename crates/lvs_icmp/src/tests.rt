//! Errors about one masqueraded connection, byte for byte.
use crate::answer;
use lvs_types::{
    Addr, Bytes, Daemons, Dest, DestId, DestRow, DestSpec, Entry, IcmpAnswer, Key, Listed, Method,
    NoMemory, Proto, ServiceKey, Settings, Side, Snapshot, TcpState,
};
use std::alloc::Global;
use std::test::Fail;

/// The service, 10.0.0.1.
const SERVICE: Addr = Addr {
    number: 0x0a00_0001,
};

/// The server by masquerade, 192.168.0.1.
const SERVER: Addr = Addr {
    number: 0xc0a8_0001,
};

/// The client, 172.16.0.9.
const CLIENT: Addr = Addr {
    number: 0xac10_0009,
};

/// From a router, that the client can't be reached, about a packet as it left the director.
#[rattlefmt::skip]
const FROM_CLIENT: [u8; 56] = [
    0x45, 0x00, 0x00, 0x38, 0x00, 0x01, 0x40, 0x00, 0x40, 0x01, 0x84, 0xb2, 0xac, 0x10, 0x00, 0x01, 0x0a, 0x00, 0x00, 0x01,
    0x03, 0x01, 0x60, 0x6e, 0x00, 0x00, 0x00, 0x00,
    0x45, 0x00, 0x00, 0x28, 0x00, 0x01, 0x40, 0x00, 0x40, 0x06, 0x84, 0xb5, 0x0a, 0x00, 0x00, 0x01, 0xac, 0x10, 0x00, 0x09,
    0x00, 0x50, 0x9c, 0x40, 0x00, 0x00, 0x00, 0x00,
];

/// The same about the packet as the server sent it.
#[rattlefmt::skip]
const TO_SERVER: [u8; 56] = [
    0x45, 0x00, 0x00, 0x38, 0x00, 0x01, 0x40, 0x00, 0x40, 0x01, 0xce, 0x09, 0xac, 0x10, 0x00, 0x01, 0xc0, 0xa8, 0x00, 0x01,
    0x03, 0x01, 0x41, 0x2e, 0x00, 0x00, 0x00, 0x00,
    0x45, 0x00, 0x00, 0x28, 0x00, 0x01, 0x40, 0x00, 0x40, 0x06, 0xce, 0x0c, 0xc0, 0xa8, 0x00, 0x01, 0xac, 0x10, 0x00, 0x09,
    0x1f, 0x90, 0x9c, 0x40, 0x00, 0x00, 0x00, 0x00,
];

/// From the server, that its port can't be reached, about a packet as the director sent it there.
#[rattlefmt::skip]
const FROM_SERVER: [u8; 56] = [
    0x45, 0x00, 0x00, 0x38, 0x00, 0x01, 0x40, 0x00, 0x40, 0x01, 0xce, 0x01, 0xc0, 0xa8, 0x00, 0x01, 0xac, 0x10, 0x00, 0x09,
    0x03, 0x03, 0x41, 0x2c, 0x00, 0x00, 0x00, 0x00,
    0x45, 0x00, 0x00, 0x28, 0x00, 0x01, 0x40, 0x00, 0x40, 0x06, 0xce, 0x0c, 0xac, 0x10, 0x00, 0x09, 0xc0, 0xa8, 0x00, 0x01,
    0x9c, 0x40, 0x1f, 0x90, 0x00, 0x00, 0x00, 0x00,
];

/// The same about the packet as the client sent it.
#[rattlefmt::skip]
const TO_CLIENT: [u8; 56] = [
    0x45, 0x00, 0x00, 0x38, 0x00, 0x01, 0x40, 0x00, 0x40, 0x01, 0x84, 0xaa, 0x0a, 0x00, 0x00, 0x01, 0xac, 0x10, 0x00, 0x09,
    0x03, 0x03, 0x60, 0x6c, 0x00, 0x00, 0x00, 0x00,
    0x45, 0x00, 0x00, 0x28, 0x00, 0x01, 0x40, 0x00, 0x40, 0x06, 0x84, 0xb5, 0xac, 0x10, 0x00, 0x09, 0x0a, 0x00, 0x00, 0x01,
    0x9c, 0x40, 0x00, 0x50, 0x00, 0x00, 0x00, 0x00,
];

/// The connection, and its server.
fn connection(method: Method, live: bool) -> (Entry, DestRow) {
    let key = Key {
        proto: Proto::Tcp,
        caddr: CLIENT,
        cport: 40000,
        vaddr: SERVICE,
        vport: 80,
    };
    let spec = DestSpec {
        addr: SERVER,
        port: 8080,
        method,
        weight: 1,
        upper: 0,
        lower: 0,
    };
    let dest = Dest {
        id: DestId(1),
        service: ServiceKey::Net {
            proto: Proto::Tcp,
            addr: SERVICE,
            port: 80,
        },
        spec,
        overloaded: false,
        live,
    };
    let entry = Entry {
        id: 1,
        key,
        server: Some(DestId(1)),
        method,
        daddr: SERVER,
        dport: 8080,
        state: Some(TcpState::Established),
        timeout: 900,
        deadline: 900,
        packets: 1,
        template: None,
        mark: 0,
    };
    let row = DestRow {
        dest,
        active: 1,
        inactive: 0,
        templates: 0,
    };
    (entry, row)
}

/// Tables with that connection and that server.
fn tables(alloc: Global, method: Method, live: bool) -> Result<Snapshot, NoMemory> {
    let (entry, row) = connection(method, live);
    Ok(Snapshot {
        now: 0,
        local: SERVICE,
        settings: Settings::initial(),
        daemons: Daemons {
            master: None,
            backup: None,
        },
        services: Listed::new(alloc),
        dests: Listed::from_vec([row].to_vec(alloc)?),
        templates: Listed::new(alloc),
        entries: Listed::from_vec([entry].to_vec(alloc)?),
        pending: Listed::new(alloc),
    })
}

/// The error from the client's side with some bytes changed.
fn changed(changes: &[(usize, u8)]) -> [u8; 56] {
    let mut bytes = FROM_CLIENT;
    for (place, byte) in changes {
        if let Some(there) = bytes.get_mut(*place) {
            *there = *byte;
        }
    }
    bytes
}

#[test]
fn errors_go_on_to_both_sides(rt: HostRuntime) -> Result<(), Fail> {
    let alloc = rt.alloc();
    let tables = tables(alloc, Method::Masq, true)?;
    let to_server = IcmpAnswer::ToServer {
        to: SERVER,
        bytes: Bytes::copied(alloc, &TO_SERVER)?,
    };
    assert_eq!(rt;
        answer(alloc, &tables, Side::Inward, &FROM_CLIENT)?,
        to_server
    );
    let to_client = IcmpAnswer::ToClient(Bytes::copied(alloc, &TO_CLIENT)?);
    assert_eq!(rt;
        answer(alloc, &tables, Side::Outward, &FROM_SERVER)?,
        to_client
    );
    Ok(())
}

#[test]
fn other_errors_stay(rt: HostRuntime) -> Result<(), Fail> {
    let alloc = rt.alloc();
    for (method, live, changes, want) in [
        (Method::Direct, true, [].as_slice(), IcmpAnswer::Pass),
        (Method::Masq, false, [].as_slice(), IcmpAnswer::Gone),
        (
            Method::Masq,
            true,
            [(23, 0x6f)].as_slice(),
            IcmpAnswer::BadSum,
        ),
        (
            Method::Masq,
            true,
            [(20, 0x08), (22, 0x5b)].as_slice(),
            IcmpAnswer::Pass,
        ),
    ] {
        let tables = tables(alloc, method, live)?;
        let found = answer(alloc, &tables, Side::Inward, &changed(changes))?;
        assert_eq!(rt; found, want);
    }
    Ok(())
}
