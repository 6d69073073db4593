//! A capture through the top call.
use crate::tests::served;
use lvs_types::{CaptureCause, NoMemory, Status};
use std::alloc::Global;
use std::test::Fail;

/// A service by turns with two servers, and the line before a capture.
const EDITS: &[u8] =
    b"local 10.0.0.254\nat 0\nipvs -A -t 10.0.0.1:80 -s rr\nipvs -a -t 10.0.0.1:80 -r 192.168.0.1 -g\nipvs -a -t 10.0.0.1:80 -r 192.168.0.2 -g\ncapture\n";

/// Three SYNs at second 5, as a little endian file of raw IP. They go on as they came, so that what
/// is written is this file again.
const SENT: &[u8] =
    b"\xd4\xc3\xb2\xa1\x02\x00\x04\x00\x00\x00\x00\x00\x00\x00\x00\x00\x00\x00\x04\x00\x65\x00\x00\x00\x05\x00\x00\x00\x00\x00\x00\x00\x28\x00\x00\x00\x28\x00\x00\x00\x45\x00\x00\x28\x00\x01\x40\x00\x40\x06\x84\xb5\xac\x10\x00\x09\x0a\x00\x00\x01\x9c\x40\x00\x50\x00\x00\x00\x00\x00\x00\x00\x00\x50\x02\x20\x00\x3d\x38\x00\x00\x05\x00\x00\x00\x00\x00\x00\x00\x28\x00\x00\x00\x28\x00\x00\x00\x45\x00\x00\x28\x00\x01\x40\x00\x40\x06\x84\xb5\xac\x10\x00\x09\x0a\x00\x00\x01\x9c\x41\x00\x50\x00\x00\x00\x00\x00\x00\x00\x00\x50\x02\x20\x00\x3d\x37\x00\x00\x05\x00\x00\x00\x00\x00\x00\x00\x28\x00\x00\x00\x28\x00\x00\x00\x45\x00\x00\x28\x00\x01\x40\x00\x40\x06\x84\xb5\xac\x10\x00\x09\x0a\x00\x00\x01\x9c\x42\x00\x50\x00\x00\x00\x00\x00\x00\x00\x00\x50\x02\x20\x00\x3d\x36\x00\x00";

const WORDS: [&str; 4] = ["capture", "192.168.0.0", "16", "1"];

/// The edits, and behind them so many bytes of the file.
fn input(alloc: Global, size: usize) -> Result<Vec<u8>, NoMemory> {
    let mut all = EDITS.to_vec(alloc)?;
    all.extend_from_slice(&SENT[..size.min(SENT.len())])?;
    Ok(all)
}

#[test]
fn packets_of_a_capture_are_sent_on(rt: HostRuntime) -> Result<(), Fail> {
    let alloc = rt.alloc();
    let run = served(alloc, &WORDS, &input(alloc, 192)?, &[], &[])?;
    assert_eq!(rt; run.status, Status::Finished);
    assert_eq!(rt; run.rounds, 2);
    assert_eq!(rt; run.text.as_slice(), SENT);
    Ok(())
}

#[test]
fn a_capture_that_lacks_its_last_byte_is_refused(rt: HostRuntime) -> Result<(), Fail> {
    let alloc = rt.alloc();
    let run = served(alloc, &WORDS, &input(alloc, 191)?, &[], &[])?;
    let refused = Status::CaptureRefused {
        at: 3,
        cause: CaptureCause::RecordShort,
    };
    assert_eq!(rt; run.status, refused);
    assert_eq!(rt; run.text.len(), 0);
    Ok(())
}
