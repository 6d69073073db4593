//! Capture files, there and back.
use super::samples::{ANSWER, AT_5, CUT_TO_15, ETHERNET, IPV4, IPV6, RAW, SYN, are_whole, joined};
use crate::{CaptureRefused, ip_of, read_capture, write_capture};
use lvs_types::CaptureCause;
use std::alloc::Global;
use std::test::Fail;

/// How many frames are read, or the refusal.
fn count_frames(alloc: Global, bytes: &[u8]) -> Result<usize, CaptureRefused> {
    Ok(read_capture(alloc, bytes)?.frames.as_slice().len())
}

fn refused(at: u64, cause: CaptureCause) -> Result<usize, CaptureRefused> {
    Err(CaptureRefused::Refused { at, cause })
}

#[test]
fn a_file_is_written_as_it_was_read(rt: HostRuntime) -> Result<(), Fail> {
    let alloc = rt.alloc();
    let file = joined(alloc, &[&RAW, &AT_5, &SYN, &AT_5, &ANSWER])?;
    let capture = read_capture(alloc, &file)?;
    assert_eq!(rt; capture.link, 101);
    let frames = capture.frames.as_slice();
    assert_eq!(rt; frames.len(), 2);
    assert!(rt; are_whole(frames));
    let written = write_capture(alloc, frames)?;
    assert!(rt; written.as_slice() == file.as_slice());
    Ok(())
}

/// What is read of a file that ends at each of its bytes.
#[test]
fn a_cut_file_is_refused(rt: HostRuntime) -> Result<(), Fail> {
    let alloc = rt.alloc();
    let file = joined(alloc, &[&RAW, &AT_5, &SYN])?;
    for length in 0..file.len() {
        let expected = match length {
            0..=23 => refused(0, CaptureCause::Short),
            24 => Ok(0),
            _ => refused(1, CaptureCause::RecordShort),
        };
        assert_eq!(rt;
            count_frames(alloc, &file[..length]),
            expected,
            "at {length}"
        );
    }
    assert_eq!(rt; count_frames(alloc, &file), Ok(1));
    Ok(())
}

/// A byte of the header that is another one.
#[test]
fn a_wrong_header_is_refused(rt: HostRuntime) -> Result<(), Fail> {
    use CaptureCause::*;
    let alloc = rt.alloc();
    for (front, byte, cause) in [
        (0, 0x4d, Magic),
        (4, 1, Version),
        (6, 3, Version),
        (20, 113, Link),
        (22, 1, Link),
    ] {
        let file = joined(alloc, &[&RAW[..front], &[byte], &RAW[front + 1..]])?;
        assert_eq!(rt; count_frames(alloc, &file), refused(0, cause), "at {front}");
    }
    Ok(())
}

/// Ethernet frames of IPv4 and IPv6 in a big endian file.
#[test]
fn big_endian_ethernet_is_read(rt: HostRuntime) -> Result<(), Fail> {
    let alloc = rt.alloc();
    let file = joined(alloc, &[&ETHERNET, &CUT_TO_15, &IPV6, &CUT_TO_15, &IPV4])?;
    let capture = read_capture(alloc, &file)?;
    assert_eq!(rt; capture.link, 1);
    let [ipv6, ipv4] = capture.frames.as_slice() else {
        return Err(Fail::from("two frames"));
    };
    assert_eq!(rt; (ipv6.seconds, ipv6.micros, ipv6.whole), (65_536, 258, 60));
    assert!(rt; ipv6.bytes.as_slice() == IPV6.as_slice());
    assert!(rt; ip_of(1, ipv6).is_none());
    assert!(rt; ip_of(1, ipv4) == Some(&IPV4[14..]));
    assert!(rt; ip_of(101, ipv6) == Some(IPV6.as_slice()));
    assert!(rt; ip_of(113, ipv4).is_none());
    Ok(())
}
