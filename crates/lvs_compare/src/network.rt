//! The few addresses and ports of all scripts, so that packets, records and edits often meet.
use crate::chance::Chance;
use lvs_types::Addr;

/// 10.0.0.1 and 10.0.0.2.
const VIRTUAL: [u32; 2] = [0x0a00_0001, 0x0a00_0002];

/// Those, and rarely an address without a service.
const DESTINATIONS: [u32; 5] = [
    0x0a00_0001,
    0x0a00_0001,
    0x0a00_0002,
    0x0a00_0002,
    0x0a00_0009,
];

/// 192.168.0.1 to 192.168.0.3, and an address that is virtual too.
const SERVERS: [u32; 5] = [
    0xc0a8_0001,
    0xc0a8_0001,
    0xc0a8_0002,
    0xc0a8_0003,
    0x0a00_0002,
];

/// Clients of two networks of 24 bits.
const CLIENTS: [u32; 4] = [0xac10_0001, 0xac10_0002, 0xac10_0003, 0xac10_0101];

/// The virtual ports.
pub(crate) const PORTS: [u16; 4] = [80, 80, 80, 53];

/// Those, and the one that stands for every port.
pub(crate) const ALL_PORTS: [u16; 4] = [80, 53, 0, 0];

const SERVER_PORTS: [u16; 4] = [80, 80, 80, 8080];

const CLIENT_PORTS: [u16; 2] = [1024, 40000];

fn one_of(chance: &mut Chance, numbers: &[u32; 5]) -> Addr {
    Addr {
        number: chance.pick(numbers),
    }
}

/// A virtual address.
pub(crate) fn virtual_addr(chance: &mut Chance) -> Addr {
    Addr {
        number: chance.pick(&VIRTUAL),
    }
}

/// A packet's destination.
pub(crate) fn destination(chance: &mut Chance) -> Addr {
    one_of(chance, &DESTINATIONS)
}

/// A real server's address.
pub(crate) fn server(chance: &mut Chance) -> Addr {
    one_of(chance, &SERVERS)
}

/// A client's address.
pub(crate) fn client(chance: &mut Chance) -> Addr {
    Addr {
        number: chance.pick(&CLIENTS),
    }
}

/// A port to which packets go.
pub(crate) fn port(chance: &mut Chance) -> u16 {
    chance.pick(&PORTS)
}

/// A real server's port.
pub(crate) fn server_port(chance: &mut Chance) -> u16 {
    chance.pick(&SERVER_PORTS)
}

/// A client's port.
pub(crate) fn client_port(chance: &mut Chance) -> u16 {
    chance.pick(&CLIENT_PORTS)
}
