//! Worked examples: reading packets, and their checksums.
ghost use Rattle.std.specs.Prelude.{◌≡◌, ◌++◌, ◌∷◌, [], true, false, take, drop, slice_set, Ok, Err};
ghost use Rattle.lvs_model.specs.Reading.{read, whole_of, payload_of};
ghost use Rattle.lvs_sum.specs.Sums.{fold, complement, update16, update32, is_valid_header, is_valid_part};
ghost use Rattle.lvs_types.specs.declared.head.Malformed.TheVariants.{Short, Version, HeaderLength, TotalLength, HeaderSum, L4Short};

/// A TCP SYN from 172.16.0.9, port 40000, to 10.0.0.1, port 80.
const SYN_40000: [u8; 40] = [
    0x45, 0x00, 0x00, 0x28, 0x00, 0x01, 0x40, 0x00, 0x40, 0x06, 0x84, 0xb5, 0xac, 0x10, 0x00, 0x09,
    0x0a, 0x00, 0x00, 0x01, 0x9c, 0x40, 0x00, 0x50, 0x00, 0x00, 0x00, 0x00, 0x00, 0x00, 0x00, 0x00,
    0x50, 0x02, 0x20, 0x00, 0x3d, 0x38, 0x00, 0x00,
];

/// The same from port 40001.
const SYN_40001: [u8; 40] = [
    0x45, 0x00, 0x00, 0x28, 0x00, 0x01, 0x40, 0x00, 0x40, 0x06, 0x84, 0xb5, 0xac, 0x10, 0x00, 0x09,
    0x0a, 0x00, 0x00, 0x01, 0x9c, 0x41, 0x00, 0x50, 0x00, 0x00, 0x00, 0x00, 0x00, 0x00, 0x00, 0x00,
    0x50, 0x02, 0x20, 0x00, 0x3d, 0x37, 0x00, 0x00,
];

/// The same from port 40002.
const SYN_40002: [u8; 40] = [
    0x45, 0x00, 0x00, 0x28, 0x00, 0x01, 0x40, 0x00, 0x40, 0x06, 0x84, 0xb5, 0xac, 0x10, 0x00, 0x09,
    0x0a, 0x00, 0x00, 0x01, 0x9c, 0x42, 0x00, 0x50, 0x00, 0x00, 0x00, 0x00, 0x00, 0x00, 0x00, 0x00,
    0x50, 0x02, 0x20, 0x00, 0x3d, 0x36, 0x00, 0x00,
];

/// A UDP datagram from 172.16.0.9, port 5353, to 10.0.0.1, port 53, with the payload "abc".
const DATAGRAM: [u8; 31] = [
    0x45, 0x00, 0x00, 0x1f, 0x00, 0x01, 0x40, 0x00, 0x40, 0x11, 0x84, 0xb3, 0xac, 0x10, 0x00, 0x09,
    0x0a, 0x00, 0x00, 0x01, 0x14, 0xe9, 0x00, 0x35, 0x00, 0x0b, 0x70, 0x3d, 0x61, 0x62, 0x63,
];

/// SYNs from three ports: 20 bytes of header, 40 in all, from 172.16.0.9 to 10.0.0.1.
pub fn reads_syns()
    ensures first { read SYN_40000 ≡ Ok (record {
      header_len = 20;
      total = 40;
      code = 6;
      tos = 0;
      id = 1;
      dont_fragment = true;
      fragment = false;
      ttl = 64;
      src = record { number = 2886729737 };
      dst = record { number = 167772161 };
      sport = 40000;
      dport = 80;
      syn = true;
      ack = false;
      fin = false;
      rst = false;
    }) }
    ensures second { read SYN_40001 ≡ Ok (record {
      header_len = 20;
      total = 40;
      code = 6;
      tos = 0;
      id = 1;
      dont_fragment = true;
      fragment = false;
      ttl = 64;
      src = record { number = 2886729737 };
      dst = record { number = 167772161 };
      sport = 40001;
      dport = 80;
      syn = true;
      ack = false;
      fin = false;
      rst = false;
    }) }
    ensures third { read SYN_40002 ≡ Ok (record {
      header_len = 20;
      total = 40;
      code = 6;
      tos = 0;
      id = 1;
      dont_fragment = true;
      fragment = false;
      ttl = 64;
      src = record { number = 2886729737 };
      dst = record { number = 167772161 };
      sport = 40002;
      dport = 80;
      syn = true;
      ack = false;
      fin = false;
      rst = false;
    }) }
{}

/// A datagram has ports and no flags.
pub fn reads_a_datagram()
    ensures { read DATAGRAM ≡ Ok (record {
      header_len = 20;
      total = 31;
      code = 17;
      tos = 0;
      id = 1;
      dont_fragment = true;
      fragment = false;
      ttl = 64;
      src = record { number = 2886729737 };
      dst = record { number = 167772161 };
      sport = 5353;
      dport = 53;
      syn = false;
      ack = false;
      fin = false;
      rst = false;
    }) }
{}

/// Of fragments and of other protocols nothing after the IP header is read: a first fragment, one at offset 3, a packet of protocol 1.
pub fn reads_no_ports()
    ensures first { read (slice_set (slice_set (slice_set (slice_set SYN_40000 6 32) 7 0) 10 164) 11 181) ≡ Ok (record {
      header_len = 20;
      total = 40;
      code = 6;
      tos = 0;
      id = 1;
      dont_fragment = false;
      fragment = true;
      ttl = 64;
      src = record { number = 2886729737 };
      dst = record { number = 167772161 };
      sport = 0;
      dport = 0;
      syn = false;
      ack = false;
      fin = false;
      rst = false;
    }) }
    ensures later { read (slice_set (slice_set (slice_set (slice_set SYN_40000 6 0) 7 3) 10 196) 11 178) ≡ Ok (record {
      header_len = 20;
      total = 40;
      code = 6;
      tos = 0;
      id = 1;
      dont_fragment = false;
      fragment = true;
      ttl = 64;
      src = record { number = 2886729737 };
      dst = record { number = 167772161 };
      sport = 0;
      dport = 0;
      syn = false;
      ack = false;
      fin = false;
      rst = false;
    }) }
    ensures other { read (slice_set (slice_set SYN_40000 9 1) 11 186) ≡ Ok (record {
      header_len = 20;
      total = 40;
      code = 1;
      tos = 0;
      id = 1;
      dont_fragment = true;
      fragment = false;
      ttl = 64;
      src = record { number = 2886729737 };
      dst = record { number = 167772161 };
      sport = 0;
      dport = 0;
      syn = false;
      ack = false;
      fin = false;
      rst = false;
    }) }
{}

/// What is damaged, and the cause: the first in the order of the list.
pub fn refuses_damaged()
    ensures short { read (take 19 SYN_40000) ≡ Err Short }
    ensures version { read (slice_set SYN_40000 0 85) ≡ Err Version }
    ensures version_before_length { read (slice_set SYN_40000 0 84) ≡ Err Version }
    ensures low_header_length { read (slice_set SYN_40000 0 68) ≡ Err HeaderLength }
    ensures high_header_length { read (slice_set SYN_40000 0 79) ≡ Err HeaderLength }
    ensures low_total_length { read (slice_set SYN_40000 3 19) ≡ Err TotalLength }
    ensures high_total_length { read (take 39 SYN_40000) ≡ Err TotalLength }
    ensures header_sum { read (slice_set SYN_40000 11 180) ≡ Err HeaderSum }
    ensures short_tcp { read (slice_set (slice_set SYN_40000 3 39) 11 182) ≡ Err L4Short }
    ensures low_data_offset { read (slice_set SYN_40000 32 64) ≡ Err L4Short }
    ensures high_data_offset { read (slice_set SYN_40000 32 96) ≡ Err L4Short }
    ensures short_udp { read (slice_set (slice_set DATAGRAM 3 27) 11 183) ≡ Err L4Short }
{}

/// The packet ends at its total length, and its payload begins after the IP header.
pub fn parts()
    ensures whole { whole_of (SYN_40000 ++ 1 ∷ 2 ∷ []) ≡ SYN_40000 }
    ensures payload { payload_of (DATAGRAM ++ 1 ∷ []) ≡ drop 20 DATAGRAM }
{}

/// The checksums of the SYN and of the datagram are right: those of their headers, and those of their parts, with the pseudo header.
pub fn right_checksums()
    ensures syn_header { is_valid_header (take 20 SYN_40000) ≡ true }
    ensures syn_part { is_valid_part 2886729737 167772161 6 20 (drop 20 SYN_40000) ≡ true }
    ensures datagram_header { is_valid_header (take 20 DATAGRAM) ≡ true }
    ensures datagram_part { is_valid_part 2886729737 167772161 17 11 (drop 20 DATAGRAM) ≡ true }
{}

/// A header's checksum is the complement of the sum with its field 0.
pub fn header_sums()
    ensures syn { complement (fold (slice_set (slice_set (take 20 SYN_40000) 10 0) 11 0)) ≡ 33973 }
    ensures datagram { complement (fold (slice_set (slice_set (take 20 DATAGRAM) 10 0) 11 0)) ≡ 33971 }
{}

/// An odd last byte is followed by a zero byte, and the empty list has the sum 0.
pub fn odd_bytes()
    ensures odd { fold (1 ∷ 2 ∷ 3 ∷ []) ≡ 1026 }
    ensures empty { fold [] ≡ 0 }
    ensures carry { fold (255 ∷ 255 ∷ 0 ∷ 2 ∷ []) ≡ 2 }
    ensures ones { fold (255 ∷ 255 ∷ 255 ∷ 255 ∷ []) ≡ 65535 }
{}

/// The checksums after the destination has become 192.168.0.1: of the headers, of the SYN's part to port 8080, and of the datagram's part to port 53.
pub fn masqueraded_checksums()
    ensures syn_header { update32 33973 167772161 3232235521 ≡ 52748 }
    ensures syn_part { update16 (update32 15672 167772161 3232235521) 80 8080 ≡ 26447 }
    ensures datagram_header { update32 33971 167772161 3232235521 ≡ 52746 }
    ensures datagram_part { update16 (update32 28733 167772161 3232235521) 53 53 ≡ 47508 }
{}

/// The worked example of RFC 1624, section 4: from 0xDD2F, with 0x5555 changed to 0x3285, to 0x0000.
pub fn rfc_1624()
    ensures { update16 56623 21845 12933 ≡ 0 }
{}
