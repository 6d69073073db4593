//! Captured scripts as they are printed, and what becomes of refusals.
use crate::serve_script;
use lvs_outside::{MemSink, MemSource};
use lvs_script::read_script;
use lvs_tidy::print_script;
use lvs_types::{CaptureCause, NoMemory, Status};
use std::alloc::Global;
use std::test::Fail;

/// A table in other spellings, and the line before a capture.
const TABLE: &[u8] =
    b"# a table\nlocal 010.0.0.254\nat 00\nipvs --add-service -s rr -t 10.0.0.1:080\nipvs -a -r 192.168.0.1 -t 10.0.0.1:80 -x 0 -y 7\nipvs -Ln\ncapture\n";

/// A SYN and its answer at second 5, as a little endian file of raw IP.
const FRAMES: &[u8] =
    b"\xd4\xc3\xb2\xa1\x02\x00\x04\x00\x00\x00\x00\x00\x00\x00\x00\x00\x00\x00\x04\x00\x65\x00\x00\x00\x05\x00\x00\x00\x00\x00\x00\x00\x14\x00\x00\x00\x14\x00\x00\x00\x45\x00\x00\x14\x00\x01\x40\x00\x40\x06\x84\xb5\xac\x10\x00\x09\x0a\x00\x00\x01\x06\x00\x00\x00\x00\x00\x00\x00\x14\x00\x00\x00\x14\x00\x00\x00\x45\x00\x00\x14\x00\x01\x40\x00\x40\x06\x84\xb5\xc0\xa8\x00\x01\xac\x10\x00\x09";

const PRINTED: &[u8] =
    b"local 10.0.0.254\n# round 0 at 0\nat 0\nipvs -A -t 10.0.0.1:80 -s rr\nipvs -a -t 10.0.0.1:80 -r 192.168.0.1:80 -g -w 1 -y 7\nlist\n# round 1 at 4\nat 4\nin 0 4500001400014000400684b5ac1000090a000001\n# round 2 at 6\nat 6\nout 4500001400014000400684b5c0a80001ac100009\n";

/// How the call ended on so many bytes of the file, and what it wrote.
fn served(alloc: Global, words: &[&str], size: usize) -> Result<(Status, Vec<u8>), NoMemory> {
    let mut list = Vec::new(alloc);
    for word in words {
        list.push(String::from_str(alloc, word)?)?;
    }
    let mut input = TABLE.to_vec(alloc)?;
    input.extend_from_slice(&FRAMES[..size.min(FRAMES.len())])?;
    let mut source = MemSource::new(input, 5, Vec::new(alloc));
    let mut sink = MemSink::new(alloc, 700, 10000, Vec::new(alloc))?;
    let status = serve_script(alloc, &list, &mut source, &mut sink);
    Ok((status, sink.bytes().to_vec(alloc)?))
}

#[test]
fn prints_a_captured_script_that_is_read_again(rt: HostRuntime) -> Result<(), Fail> {
    let alloc = rt.alloc();
    let (status, text) = served(alloc, &["192.168.0.0", "16", "2"], 200)?;
    assert_eq!(rt; status, Status::Finished);
    assert_eq!(rt; text.as_slice(), PRINTED);
    let script = read_script(alloc, &text)?;
    assert_eq!(rt; print_script(alloc, &script)?.as_slice(), PRINTED);
    Ok(())
}

#[test]
fn refuses_what_a_capture_refuses(rt: HostRuntime) -> Result<(), Fail> {
    let alloc = rt.alloc();
    let (status, text) = served(alloc, &["192.168.0.0", "16", "2"], 95)?;
    let refused = Status::CaptureRefused {
        at: 2,
        cause: CaptureCause::RecordShort,
    };
    assert_eq!(rt; status, refused);
    assert_eq!(rt; text.len(), 0);
    let (status, _) = served(alloc, &["192.168.0.0", "33", "2"], 95)?;
    assert_eq!(rt; status, Status::WordsRefused { at: 1 });
    Ok(())
}
