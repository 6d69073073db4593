//! What the headers of a packet say (RFC 791, RFC 768, RFC 9293).
ghost use Rattle.std.specs.Prelude.{◌≡◌};
ghost use Rattle.lvs_types.specs.Transport.{transport_of};

use crate::{Addr, Proto};

/// What the IPv4 header and the TCP or UDP header say. Ports and flags are 0 and false where they
/// weren't read: in fragments and in other protocols.
#[derive(Clone, Copy, Debug, PartialEq, Eq)]
pub struct Head {
    /// The length of the IP header in bytes.
    pub header_len: u16,
    /// The length of the packet in bytes.
    pub total: u16,
    /// The protocol's number.
    pub code: u8,
    /// The type of service.
    pub tos: u8,
    /// The identification.
    pub id: u16,
    /// The don't-fragment bit.
    pub dont_fragment: bool,
    /// Whether more fragments follow, or the offset isn't 0.
    pub fragment: bool,
    /// The time to live, in hops.
    pub ttl: u8,
    /// The source address.
    pub src: Addr,
    /// The destination address.
    pub dst: Addr,
    /// The source port, in host order.
    pub sport: u16,
    /// The destination port, in host order.
    pub dport: u16,
    /// TCP's SYN.
    pub syn: bool,
    /// TCP's ACK.
    pub ack: bool,
    /// TCP's FIN.
    pub fin: bool,
    /// TCP's RST.
    pub rst: bool,
}

impl Head {
    /// The protocol of an unfragmented TCP or UDP packet; none for a fragment and for every other
    /// protocol.
    pub fn transport(&self) -> Option<Proto>
        ensures { result ≡ transport_of self.now }
    {
        if self.fragment {
            None
        } else {
            Proto::of_code(self.code)
        }
    }
}

/// Why bytes are no packet, in the order in which the causes are looked for.
#[derive(Clone, Copy, Debug, PartialEq, Eq)]
pub enum Malformed {
    /// Fewer than 20 bytes.
    Short,
    /// The version isn't 4.
    Version,
    /// The header's length is below 5 words, or past the end.
    HeaderLength,
    /// The total length is below the header's, or past the end.
    TotalLength,
    /// The header's checksum is wrong.
    HeaderSum,
    /// The TCP or UDP header doesn't fit.
    L4Short,
}
