//! Where a server stands: its service, address and port, as the tables are keyed.
ghost use Rattle.std.specs.Prelude.{◌≡◌};
ghost use Rattle.lvs_dests.specs.Places.{name_of, place_at, place_of};

use lvs_types::{Addr, DestRow, ServiceKey};

/// The key of a service, as the tables are keyed.
#[derive(Clone, Copy, Debug, PartialEq, Eq, Hash)]
pub(crate) struct ServiceName {
    /// The protocol's number, 6 or 17 (RFC 791, section 3.1), or 0 for a mark.
    pub(crate) code: u8,
    /// The virtual address, or the mark.
    pub(crate) number: u32,
    /// The virtual port; 0 for a mark.
    pub(crate) port: u16,
}

impl ServiceName {
    pub(crate) fn of(key: &ServiceKey) -> ServiceName
        ensures { result ≡ name_of key.now }
    {
        match *key {
            ServiceKey::Net { proto, addr, port } => ServiceName {
                code: proto.code(),
                number: addr.number,
                port,
            },
            ServiceKey::Mark(mark) => ServiceName {
                code: 0,
                number: mark,
                port: 0,
            },
        }
    }
}

/// A service with an address and a port of a server.
#[derive(Clone, Copy, Debug, PartialEq, Eq, Hash)]
pub(crate) struct Place {
    pub(crate) service: ServiceName,
    pub(crate) addr: Addr,
    pub(crate) port: u16,
}

impl Place {
    pub(crate) fn at(service: &ServiceKey, addr: Addr, port: u16) -> Place
        ensures { result ≡ place_at service.now addr port }
    {
        Place {
            service: ServiceName::of(service),
            addr,
            port,
        }
    }

    pub(crate) fn of(row: &DestRow) -> Place
        ensures { result ≡ place_of row.now }
    {
        Place::at(&row.dest.service, row.dest.spec.addr, row.dest.spec.port)
    }
}
