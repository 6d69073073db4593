//! The length of an IP header (RFC 791, section 3.1).
ghost use Rattle.std.specs.Prelude.{◌≡◌, ◌≤◌, length};
ghost use Rattle.lvs_model.specs.Reading.{header_len_of};

/// The length of the IP header in bytes: four times IHL (RFC 791, section 3.1).
pub(crate) fn header_len(packet: &[u8]) -> usize
    requires { 20 ≤ length packet.now }
    ensures { result ≡ header_len_of packet.now }
{
    4 * usize::from(packet[0] & 0x0f)
}
