//! Real servers (ipvsadm(8)).
ghost use Rattle.std.specs.Prelude.{◌≡◌};
ghost use Rattle.lvs_types.specs.Thresholds.{has_bad_thresholds};

use crate::{Addr, DestId, Method, ServiceKey};

/// What a command says of a real server.
#[derive(Clone, Copy, Debug, PartialEq, Eq)]
pub struct DestSpec {
    /// The server's address.
    pub addr: Addr,
    /// 0 stands for the packet's destination port.
    pub port: u16,
    /// How packets go to it.
    pub method: Method,
    /// 0 to 2,147,483,647. A server of weight 0 gets no new connection.
    pub weight: u32,
    /// At so many connections the server becomes overloaded; 0 means never.
    pub upper: u32,
    /// Below so many connections an overloaded server is free again; 0 means three quarters of `upper`.
    pub lower: u32,
}

impl DestSpec {
    /// Whether the lower threshold is above the upper one, for which `-a` and `-e` are refused.
    pub fn has_bad_thresholds(&self) -> bool
        ensures { result ≡ has_bad_thresholds self.now }
    {
        self.upper < self.lower
    }
}

/// A real server, live or in the trash.
#[derive(Clone, Copy, Debug, PartialEq, Eq)]
pub struct Dest {
    /// Its id, which it keeps in the trash too.
    pub id: DestId,
    /// The service in which it stands, or stood.
    pub service: ServiceKey,
    /// What the last command said of it.
    pub spec: DestSpec,
    /// Whether it gets no new connection until it has fewer.
    pub overloaded: bool,
    /// Whether it stands in its service; else it is in the trash.
    pub live: bool,
}

/// A real server as a scheduler sees it.
#[derive(Clone, Copy, Debug, PartialEq, Eq)]
pub struct Candidate {
    /// The server's id.
    pub id: DestId,
    /// The server's weight, 0 to 2,147,483,647.
    pub weight: u32,
    /// How many connection entries name it in state Established.
    pub active: u64,
    /// How many other connection entries name it.
    pub inactive: u64,
    /// Whether it is live, its weight isn't 0 and it isn't overloaded.
    pub eligible: bool,
}

/// A real server in a snapshot, with its counts.
#[derive(Clone, Copy, Debug, PartialEq, Eq)]
pub struct DestRow {
    /// The server itself.
    pub dest: Dest,
    /// How many connection entries name it in state Established.
    pub active: u64,
    /// How many other connection entries name it.
    pub inactive: u64,
    /// How many persistence templates name it.
    pub templates: u64,
}
