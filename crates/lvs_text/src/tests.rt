//! Each piece once, behind what stood there.
use crate::{put, put_addr, put_endpoint, put_hex, put_number};
use lvs_types::Addr;
use std::test::Fail;

#[test]
fn appends_each_piece(rt: HostRuntime) -> Result<(), Fail> {
    let addr = Addr {
        number: 0xC0A8_000A,
    };
    let mut out = Vec::new(rt.alloc());
    put(&mut out, b"to ")?;
    put_endpoint(&mut out, addr, 8080)?;
    put(&mut out, b" or ")?;
    put_addr(&mut out, addr)?;
    put(&mut out, b", ")?;
    put_number(&mut out, u64::MAX)?;
    put(&mut out, b" ")?;
    put_hex(&mut out, &[0x00, 0x9A, 0xFF])?;
    assert_eq!(rt;
        out.as_slice(),
        b"to 192.168.0.10:8080 or 192.168.0.10, 18446744073709551615 009aff".as_slice()
    );
    Ok(())
}
