//! Connection entries and their TCP states.
ghost use Rattle.std.specs.Prelude.{◌≡◌};
ghost use Rattle.lvs_types.specs.StateNumbers.{state_number, state_of_number};

use crate::{Addr, DestId, Method, Proto, TemplateId};

/// The state of a TCP connection as the director sees it, numbered from 0 to 10 in this order.
#[derive(Clone, Copy, Debug, PartialEq, Eq)]
pub enum TcpState {
    /// 0: no packet was seen yet.
    None0,
    /// 1: the handshake is done; the one state that counts as active.
    Established,
    /// 2: the real server sent a SYN.
    SynSent,
    /// 3: the client sent a SYN.
    SynRecv,
    /// 4: one side has sent a FIN.
    FinWait,
    /// 5: both sides have sent a FIN.
    TimeWait,
    /// 6: the connection was reset or closed.
    Close,
    /// 7: the client has sent a FIN.
    CloseWait,
    /// 8: the last ACK is awaited.
    LastAck,
    /// 9: the real server listens.
    Listen,
    /// 10: a SYN was answered.
    SynAck,
}

/// Which table of TCP states a packet is looked up in.
#[derive(Clone, Copy, Debug, PartialEq, Eq)]
pub enum Direction {
    /// From the client, of a masqueraded connection.
    Input,
    /// From the real server, of a masqueraded connection.
    Output,
    /// From the client, where the director sees no answer (tunnelling, direct routing).
    InputOnly,
}

/// What a connection is known by: protocol, client and virtual side.
#[derive(Clone, Copy, Debug, PartialEq, Eq)]
pub struct Key {
    /// TCP or UDP.
    pub proto: Proto,
    /// The client's address.
    pub caddr: Addr,
    /// The client's port.
    pub cport: u16,
    /// The virtual address.
    pub vaddr: Addr,
    /// The virtual port.
    pub vport: u16,
}

/// A connection entry.
#[derive(Clone, Copy, Debug, PartialEq, Eq)]
pub struct Entry {
    /// Its creation number: from 1, rising, never used again.
    pub id: u64,
    /// What it is known by; no two entries have the same key.
    pub key: Key,
    /// The real server that it counts at; none where it is unbound.
    pub server: Option<DestId>,
    /// How its packets are forwarded.
    pub method: Method,
    /// The address to which its packets go.
    pub daddr: Addr,
    /// The port to which its packets go.
    pub dport: u16,
    /// None for UDP.
    pub state: Option<TcpState>,
    /// In seconds.
    pub timeout: u32,
    /// The moment, in seconds, at which it is due.
    pub deadline: u64,
    /// How many packets came in for it.
    pub packets: u64,
    /// The persistence template that it was made by.
    pub template: Option<TemplateId>,
    /// The mark of its mark service, else 0.
    pub mark: u32,
}

/// The states in the order of their numbers.
const STATES: [TcpState; 11] = [
    TcpState::None0,
    TcpState::Established,
    TcpState::SynSent,
    TcpState::SynRecv,
    TcpState::FinWait,
    TcpState::TimeWait,
    TcpState::Close,
    TcpState::CloseWait,
    TcpState::LastAck,
    TcpState::Listen,
    TcpState::SynAck,
];

impl TcpState {
    /// The number of the state in sync messages, 0 to 10 (Linux IPVS).
    pub fn number(self) -> u16
        ensures { result ≡ state_number self }
    {
        match self {
            TcpState::None0 => 0,
            TcpState::Established => 1,
            TcpState::SynSent => 2,
            TcpState::SynRecv => 3,
            TcpState::FinWait => 4,
            TcpState::TimeWait => 5,
            TcpState::Close => 6,
            TcpState::CloseWait => 7,
            TcpState::LastAck => 8,
            TcpState::Listen => 9,
            TcpState::SynAck => 10,
        }
    }

    /// The state of a number; none above 10.
    pub fn of_number(number: u16) -> Option<TcpState>
        ensures { result ≡ state_of_number number }
    {
        STATES.get(usize::from(number)).copied()
    }
}
