//! Vectors from outside: RFC 1071, RFC 1624, and packets with checksums that Linux wrote.
use crate::{fold, update16, update32};

const SYN_HEADER: [u8; 20] = [
    0x45, 0x00, 0x00, 0x28, 0x00, 0x01, 0x40, 0x00, 0x40, 0x06, 0x84, 0xb5, 0xac, 0x10, 0x00, 0x09,
    0x0a, 0x00, 0x00, 0x01,
];

#[test]
fn sums_of_known_bytes(rt: HostRuntime) {
    let rfc_1071 = [0x00, 0x01, 0xf2, 0x03, 0xf4, 0xf5, 0xf6, 0xf7];
    let table: [(&[u8], u16); 6] = [
        (&rfc_1071, 0xddf2),
        (&SYN_HEADER, 0xffff),
        (&[], 0),
        (&[0x01], 0x0100),
        (&[0x01, 0x02, 0x03], 0x0402),
        (&[0xff, 0xff, 0x00, 0x01], 0x0001),
    ];
    for (bytes, want) in table {
        assert_eq!(rt; fold(bytes), want, "of {bytes:?}");
    }
}

#[test]
fn updated_checksums(rt: HostRuntime) {
    assert_eq!(rt;
        update16(0xdd2f, 0x5555, 0x3285),
        0x0000,
        "RFC 1624, section 4"
    );
    let (old, new) = (0x0a00_0001, 0xc0a8_0001);
    assert_eq!(rt; update32(0x84b5, old, new), 0xce0c, "an IP header's");
    assert_eq!(rt;
        update16(update32(0x3d38, old, new), 80, 8080),
        0x674f,
        "a TCP header's"
    );
    assert_eq!(rt;
        update16(update32(0x703d, old, new), 53, 53),
        0xb994,
        "a UDP header's"
    );
}
