//! Known packets, whole and damaged.
use crate::numbers::{addr_at, addr_bytes, put_addr, put_word, word_at, word_bytes};
use crate::{ipv4, read_packet};
use lvs_types::{Addr, Head, Malformed};

/// A TCP SYN of 40 bytes from 172.16.0.9, port 40000, to 10.0.0.1, port 80, and 8 bytes after it.
const SYN: [u8; 48] = [
    0x45, 0x00, 0x00, 0x28, 0x00, 0x01, 0x40, 0x00, 0x40, 0x06, 0x84, 0xb5, 0xac, 0x10, 0x00, 0x09,
    0x0a, 0x00, 0x00, 0x01, 0x9c, 0x40, 0x00, 0x50, 0x00, 0x00, 0x00, 0x00, 0x00, 0x00, 0x00, 0x00,
    0x50, 0x02, 0x20, 0x00, 0x3d, 0x38, 0x00, 0x00, 0x00, 0x00, 0x00, 0x00, 0x00, 0x00, 0x00, 0x00,
];

/// A TCP SYN ACK from 192.168.0.1, port 8080, to 172.16.0.9, port 40000.
const SYN_ACK: [u8; 40] = [
    0x45, 0x00, 0x00, 0x28, 0x00, 0x01, 0x40, 0x00, 0x40, 0x06, 0xce, 0x0c, 0xc0, 0xa8, 0x00, 0x01,
    0xac, 0x10, 0x00, 0x09, 0x1f, 0x90, 0x9c, 0x40, 0x00, 0x00, 0x00, 0x00, 0x00, 0x00, 0x00, 0x00,
    0x50, 0x12, 0x20, 0x00, 0x67, 0x3f, 0x00, 0x00,
];

/// A UDP datagram from 172.16.0.9, port 5353, to 10.0.0.1, port 53, with the payload "abc".
const DATAGRAM: [u8; 31] = [
    0x45, 0x00, 0x00, 0x1f, 0x00, 0x01, 0x40, 0x00, 0x40, 0x11, 0x84, 0xb3, 0xac, 0x10, 0x00, 0x09,
    0x0a, 0x00, 0x00, 0x01, 0x14, 0xe9, 0x00, 0x35, 0x00, 0x0b, 0x70, 0x3d, 0x61, 0x62, 0x63,
];

/// The head of the SYN.
fn syn_head() -> Head {
    Head {
        header_len: 20,
        total: 40,
        code: 6,
        tos: 0,
        id: 1,
        dont_fragment: true,
        fragment: false,
        ttl: 64,
        src: Addr {
            number: 0xac10_0009,
        },
        dst: Addr {
            number: 0x0a00_0001,
        },
        sport: 40000,
        dport: 80,
        syn: true,
        ack: false,
        fin: false,
        rst: false,
    }
}

#[test]
fn heads_of_known_packets(rt: HostRuntime) {
    let table: [(&[u8], Head); 3] = [
        (&SYN, syn_head()),
        (
            &SYN_ACK,
            Head {
                src: Addr {
                    number: 0xc0a8_0001,
                },
                dst: Addr {
                    number: 0xac10_0009,
                },
                sport: 8080,
                dport: 40000,
                ack: true,
                ..syn_head()
            },
        ),
        (
            &DATAGRAM,
            Head {
                total: 31,
                code: 17,
                sport: 5353,
                dport: 53,
                syn: false,
                ..syn_head()
            },
        ),
    ];
    for (bytes, want) in table {
        match read_packet(bytes) {
            Ok(packet) => {
                assert_eq!(rt; packet.head(), want);
                assert_eq!(rt; packet.whole().len(), usize::from(want.total));
                assert_eq!(rt;
                    packet.payload().len(),
                    usize::from(want.total).saturating_sub(20)
                );
            }
            Err(why) => assert!(rt; false, "{why:?}"),
        }
    }
}

/// The SYN's first bytes, some of them changed.
fn changed(changes: &[(usize, u8)]) -> [u8; 48] {
    let mut bytes = SYN;
    for (place, byte) in changes {
        if let Some(there) = bytes.get_mut(*place) {
            *there = *byte;
        }
    }
    bytes
}

#[test]
fn causes_and_ports(rt: HostRuntime) {
    type Read = Result<(u16, u16, u16, bool), Malformed>;
    let table: [(&str, usize, &[(usize, u8)], Read); 21] = [
        ("a SYN", 40, &[], Ok((20, 40000, 80, true))),
        (
            "bytes past the total length",
            48,
            &[],
            Ok((20, 40000, 80, true)),
        ),
        ("one byte", 1, &[], Err(Malformed::Short)),
        ("version 6", 40, &[(0, 0x65)], Err(Malformed::Version)),
        (
            "version 5 with IHL 4",
            40,
            &[(0, 0x54)],
            Err(Malformed::Version),
        ),
        ("IHL 4", 40, &[(0, 0x44)], Err(Malformed::HeaderLength)),
        (
            "IHL 15 past the end",
            40,
            &[(0, 0x4f)],
            Err(Malformed::HeaderLength),
        ),
        (
            "a total length below the header's",
            40,
            &[(3, 0x13)],
            Err(Malformed::TotalLength),
        ),
        (
            "a total length past the end",
            40,
            &[(3, 0x29)],
            Err(Malformed::TotalLength),
        ),
        (
            "a wrong checksum",
            40,
            &[(11, 0xb4)],
            Err(Malformed::HeaderSum),
        ),
        (
            "IHL 6, with options",
            44,
            &[
                (0, 0x46),
                (3, 0x2c),
                (20, 0x01),
                (21, 0x01),
                (22, 0x01),
                (23, 0x00),
                (24, 0x9c),
                (25, 0x40),
                (26, 0x00),
                (27, 0x50),
                (36, 0x50),
                (37, 0x02),
                (10, 0x81),
                (11, 0xb0),
            ],
            Ok((24, 40000, 80, true)),
        ),
        (
            "19 bytes of TCP",
            39,
            &[(3, 0x27), (11, 0xb6)],
            Err(Malformed::L4Short),
        ),
        (
            "a data offset of 4 words",
            40,
            &[(32, 0x40)],
            Err(Malformed::L4Short),
        ),
        (
            "a data offset past the end",
            40,
            &[(32, 0x60)],
            Err(Malformed::L4Short),
        ),
        (
            "a data offset exactly at the end",
            44,
            &[(3, 0x2c), (32, 0x60), (11, 0xb1)],
            Ok((20, 40000, 80, true)),
        ),
        (
            "7 bytes of UDP",
            27,
            &[(3, 0x1b), (9, 0x11), (11, 0xb7)],
            Err(Malformed::L4Short),
        ),
        (
            "8 bytes of UDP",
            28,
            &[(3, 0x1c), (9, 0x11), (11, 0xb6)],
            Ok((20, 40000, 80, false)),
        ),
        (
            "protocol 1 without a byte",
            20,
            &[(3, 0x14), (9, 0x01), (11, 0xce)],
            Ok((20, 0, 0, false)),
        ),
        (
            "a short first fragment",
            24,
            &[(3, 0x18), (6, 0x20), (10, 0xa4), (11, 0xc5)],
            Ok((20, 0, 0, false)),
        ),
        (
            "a short last fragment of UDP",
            21,
            &[
                (3, 0x15),
                (6, 0x00),
                (7, 0x03),
                (9, 0x11),
                (10, 0xc4),
                (11, 0xba),
            ],
            Ok((20, 0, 0, false)),
        ),
        (
            "the reserved bit alone",
            40,
            &[(6, 0x80), (10, 0x44)],
            Ok((20, 40000, 80, true)),
        ),
    ];
    for (name, length, changes, want) in table {
        let bytes = changed(changes);
        let found = read_packet(bytes.get(..length).unwrap_or(&[])).map(|packet| {
            let head = packet.head();
            (head.header_len, head.sport, head.dport, head.syn)
        });
        assert_eq!(rt; found, want, "{name}");
    }
}

#[test]
fn cut_at_each_length(rt: HostRuntime) {
    for length in 0..40 {
        let want = if length < 20 {
            Malformed::Short
        } else {
            Malformed::TotalLength
        };
        let found = read_packet(SYN.get(..length).unwrap_or(&[])).err();
        assert_eq!(rt; found, Some(want), "{length} bytes");
    }
}

#[test]
fn puts_numbers_where_they_are_read(rt: HostRuntime) {
    let mut bytes = SYN;
    let addr = Addr {
        number: 0xc0a8_0102,
    };
    put_addr(&mut bytes, ipv4::SOURCE, addr);
    put_word(&mut bytes, ipv4::IDENTIFICATION, 0x1234);
    assert_eq!(rt; addr_at(&bytes, ipv4::SOURCE), addr);
    assert_eq!(rt; addr_at(&bytes, ipv4::DESTINATION).number, 0x0a00_0001);
    assert_eq!(rt; word_at(&bytes, ipv4::IDENTIFICATION), 0x1234);
    assert_eq!(rt; addr_bytes(addr), [0xc0, 0xa8, 0x01, 0x02]);
    assert_eq!(rt; word_bytes(0x1234), [0x12, 0x34]);
}
