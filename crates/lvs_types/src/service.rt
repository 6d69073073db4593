//! Virtual services (ipvsadm(8)).
ghost use Rattle.std.specs.Prelude.{◌≡◌};
ghost use Rattle.lvs_types.specs.Protocols.{proto_code, proto_of_code};
ghost use Rattle.lvs_types.specs.Methods.{method_code, method_of_code};
ghost use Rattle.lvs_types.specs.Schedulers.{scheduler_name, scheduler_named};

use crate::{Addr, DestId};

/// The transport protocol of a service, an entry or a packet.
#[derive(Clone, Copy, Debug, PartialEq, Eq)]
pub enum Proto {
    /// IP protocol 6 (RFC 9293).
    Tcp,
    /// IP protocol 17 (RFC 768).
    Udp,
}

/// How packets are forwarded to a real server (ipvsadm(8), packet-forwarding-method).
#[derive(Clone, Copy, Debug, PartialEq, Eq)]
pub enum Method {
    /// Masquerading, `-m`: the destination is rewritten (NAT).
    Masq,
    /// Tunnelling, `-i`: the packet is sent inside another one (RFC 2003).
    Tunnel,
    /// Direct routing, `-g`: the packet is unchanged.
    Direct,
}

/// How a real server is picked for a new connection (ipvsadm(8), scheduling-method).
#[derive(Clone, Copy, Debug, PartialEq, Eq)]
pub enum Scheduler {
    /// Round robin: the first eligible server after the one picked last.
    Rr,
    /// Weighted round robin, by the greatest common divisor of the eligible weights.
    Wrr,
    /// Least connection: the least of 256 times active plus inactive.
    Lc,
    /// Weighted least connection: the least of that over weight.
    Wlc,
    /// Shortest expected delay: the least of active plus 1, over weight.
    Sed,
    /// Never queue: the first eligible server without active connections, else as sed.
    Nq,
    /// Source hashing: the server of the slot of the packet's source.
    Sh,
    /// Destination hashing: the server of the slot of the packet's destination.
    Dh,
    /// Weighted failover: the eligible server of greatest weight.
    Fo,
    /// Weighted overflow: as fo, among the servers with at most as many active connections as their
    /// weight.
    Ovf,
    /// Maglev hashing: the server of the client's slot, from a table filled in rounds.
    Mh,
}

/// What a service is known by.
#[derive(Clone, Copy, Debug, PartialEq, Eq)]
pub enum ServiceKey {
    /// A virtual address, `-t` or `-u`. Port 0 stands for every port.
    Net { proto: Proto, addr: Addr, port: u16 },
    /// A firewall mark above 0, `-f`.
    Mark(u32),
}

/// Where a scheduler that goes round stands.
#[derive(Clone, Copy, Debug, PartialEq, Eq)]
pub struct Cursor {
    /// The server that was picked last.
    pub last: Option<DestId>,
    /// The present weight of wrr.
    pub cw: u32,
}

/// A virtual service.
#[derive(Clone, Copy, Debug, PartialEq, Eq)]
pub struct Service {
    /// What it is known by; no two services have the same key.
    pub key: ServiceKey,
    /// How its servers are picked, `-s`.
    pub scheduler: Scheduler,
    /// The timeout of its persistence templates in seconds, `-p`.
    pub persist: Option<u32>,
    /// How many leading bits of a client's address a template keeps, 0 to 32, `-M`.
    pub mask_bits: u8,
    /// One-packet scheduling of UDP, `-o`.
    pub one_packet: bool,
    /// Where the scheduler stands.
    pub cursor: Cursor,
}

impl Proto {
    /// The number of the protocol in an IP header: 6 or 17 (RFC 791, section 3.1).
    pub fn code(self) -> u8
        ensures { result ≡ proto_code self }
    {
        match self {
            Proto::Tcp => 6,
            Proto::Udp => 17,
        }
    }

    /// The protocol of a number; none for every number but 6 and 17.
    pub fn of_code(code: u8) -> Option<Proto>
        ensures { result ≡ proto_of_code code }
    {
        match code {
            6 => Some(Proto::Tcp),
            17 => Some(Proto::Udp),
            _ => None,
        }
    }
}

impl Method {
    /// The number of the method in the low three bits of a sync record's flags: 0 masquerading,
    /// 2 tunnelling, 3 direct routing (the layout of Linux IPVS).
    pub fn code(self) -> u32
        ensures { result ≡ method_code self }
    {
        match self {
            Method::Masq => 0,
            Method::Tunnel => 2,
            Method::Direct => 3,
        }
    }

    /// The method of a number; none for every number but 0, 2 and 3.
    pub fn of_code(code: u32) -> Option<Method>
        ensures { result ≡ method_of_code code }
    {
        match code {
            0 => Some(Method::Masq),
            2 => Some(Method::Tunnel),
            3 => Some(Method::Direct),
            _ => None,
        }
    }
}

/// All schedulers.
const SCHEDULERS: [Scheduler; 11] = [
    Scheduler::Rr,
    Scheduler::Wrr,
    Scheduler::Lc,
    Scheduler::Wlc,
    Scheduler::Sed,
    Scheduler::Nq,
    Scheduler::Sh,
    Scheduler::Dh,
    Scheduler::Fo,
    Scheduler::Ovf,
    Scheduler::Mh,
];

impl Scheduler {
    /// The name of the scheduler, in lower-case letters (ipvsadm(8), scheduling-method).
    pub fn name(self) -> &'static [u8]
        ensures { result.now ≡ scheduler_name self }
    {
        match self {
            Scheduler::Rr => b"rr",
            Scheduler::Wrr => b"wrr",
            Scheduler::Lc => b"lc",
            Scheduler::Wlc => b"wlc",
            Scheduler::Sed => b"sed",
            Scheduler::Nq => b"nq",
            Scheduler::Sh => b"sh",
            Scheduler::Dh => b"dh",
            Scheduler::Fo => b"fo",
            Scheduler::Ovf => b"ovf",
            Scheduler::Mh => b"mh",
        }
    }

    /// The scheduler that a word names; none where it is no scheduler's name.
    pub fn named(word: &[u8]) -> Option<Scheduler>
        ensures { result ≡ scheduler_named word.now }
    {
        SCHEDULERS
            .iter()
            .copied()
            .find(|scheduler| word == scheduler.name())
    }
}
