//! Writing capture files.
ghost use Rattle.std.specs.Prelude.{◌≡◌, ◌≤◌, ◌++◌, length, IfOk, OnOk, All, Ok, flat_map};
ghost use Rattle.lvs_model.specs.CaptureFiles.{capture_of, capture_bytes, header_bytes, record_bytes};
ghost use Rattle.lvs_model.specs.Captured.{sent_frame};
ghost use Rattle.lvs_pcap.specs.Reading.{IsWhole};

use crate::fields::{put_bytes, put_number, put_word};
use crate::places::{
    FILE_HEADER, MAGIC_NUMBER, MAJOR_VERSION, MINOR_VERSION, RAW_IP, RECORD_HEADER,
};
use lvs_types::{Bytes, Frame, NoMemory};
use std::alloc::Global;

/// The greatest length that is stated.
const GREATEST_LENGTH: u32 = 262_144;

/// The capture file of these frames: little endian, with zone 0, accuracy 0 and link 101 (raw IP).
///
/// Each frame has at most 65,535 bytes, and all of it was captured.
pub fn write_capture(alloc: Global, frames: &[Frame]) -> Result<Bytes, NoMemory>
    requires { All IsWhole frames.now }
    ensures file { IfOk result (λ bytes. bytes ≡ capture_bytes frames.now) }
    ensures again { IfOk result (λ bytes. capture_of bytes ≡ Ok (record { link = 101; frames = frames.now })) }
{
    let mut out = Vec::with_capacity(alloc, file_size(frames))?;
    append_header(&mut out)?;
    for frame in frames {
        put_record(&mut out, frame)?;
    }
    Ok(Bytes::from_vec(out))
}

/// How many bytes the file of these frames has; room for it is made at once.
fn file_size(frames: &[Frame]) -> usize {
    let mut size = FILE_HEADER;
    for frame in frames {
        size = size
            .saturating_add(RECORD_HEADER)
            .saturating_add(frame.bytes.as_slice().len());
    }
    size
}

/// Appends the header of a file as `write_capture` writes it.
pub fn append_header(out: &mut Vec<u8>) -> Result<(), NoMemory>
    ensures { OnOk result (out.new.items ≡ out.old.items ++ header_bytes) }
{
    put_number(out, MAGIC_NUMBER)?;
    put_word(out, MAJOR_VERSION)?;
    put_word(out, MINOR_VERSION)?;
    put_number(out, 0)?;
    put_number(out, 0)?;
    put_number(out, GREATEST_LENGTH)?;
    put_number(out, RAW_IP)?;
    Ok(())
}

fn put_record(out: &mut Vec<u8>, frame: &Frame) -> Result<(), NoMemory>
    requires { IsWhole frame.now }
    ensures { OnOk result (out.new.items ≡ out.old.items ++ record_bytes frame.now) }
{
    let bytes = frame.bytes.as_slice();
    put_number(out, frame.seconds)?;
    put_number(out, frame.micros)?;
    put_number(out, bytes.len() as u32)?;
    put_number(out, frame.whole)?;
    put_bytes(out, bytes)?;
    Ok(())
}

/// Appends the record of a packet that was sent in that second, with 0 microseconds: all of it was
/// captured, and its length fits into the record's four bytes.
pub fn append_packet(out: &mut Vec<u8>, seconds: u32, packet: &[u8]) -> Result<(), NoMemory>
    requires { length packet.now ≤ 4294967295 }
    ensures { OnOk result (out.new.items ≡ out.old.items ++ record_bytes (sent_frame seconds packet.now)) }
{
    let size = packet.len() as u32;
    put_number(out, seconds)?;
    put_number(out, 0)?;
    put_number(out, size)?;
    put_number(out, size)?;
    put_bytes(out, packet)?;
    Ok(())
}
