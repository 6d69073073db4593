//! Reading capture files.
ghost use Rattle.std.specs.Prelude.{◌≡◌, ◌≤◌, ◌+◌, length, drop, MatchResult, Ok, Err, IfOk, IfErr};
ghost use Rattle.lvs_model.specs.CaptureFiles.{capture_of, frames_behind, frame_of, frame_read, captured_length};
ghost use Rattle.lvs_pcap.specs.Reading.{IsRefusal, AreInSeconds};

use crate::fields::number;
use crate::header::{link_of, read_header};
use crate::places::{CAPTURED, FILE_HEADER, MICROS, RECORD_HEADER, SECONDS, WHOLE};
use crate::refused::CaptureRefused;
use lvs_model::capture::{BadCapture, Endianness};
use lvs_types::{Bytes, Capture, CaptureCause, Frame, Listed, NoMemory};
use std::alloc::Global;

/// Reads a capture file in the classic pcap format (pcap-savefile(5)), in its own byte order.
///
/// It gives one frame for each record, in order. Zone, accuracy and greatest length aren't looked
/// at. The file header is refused, as record 0, for the first of these causes: Short, fewer than 24
/// bytes; Magic; Version, not 2.4; Link, not 1 (Ethernet) or 101 (raw IP). Then the first record of
/// which fewer than 16 bytes or fewer than its captured bytes are there is refused for RecordShort.
pub fn read_capture(alloc: Global, bytes: &[u8]) -> Result<Capture, CaptureRefused>
    ensures read { MatchResult result (λ capture. capture_of bytes.now ≡ Ok capture) (λ refused. IsRefusal (capture_of bytes.now) refused) }
    ensures seconds { IfOk result (λ capture. AreInSeconds capture.frames) }
{
    let order = read_header(bytes)?;
    let frames = read_frames(alloc, order, bytes)?;
    Ok(Capture {
        link: link_of(order, bytes),
        frames,
    })
}

/// The frames of all records.
fn read_frames(
    alloc: Global,
    order: Endianness,
    bytes: &[u8],
) -> Result<Listed<Frame>, CaptureRefused>
    requires { 24 ≤ length bytes.now }
    ensures read { MatchResult result (λ frames. frames_behind order 1 24 bytes.now ≡ Ok frames) (λ refused. IsRefusal (frames_behind order 1 24 bytes.now) refused) }
    ensures seconds { IfOk result (λ frames. AreInSeconds frames) }
{
    let mut frames = Vec::new(alloc);
    let mut rest = rest_from(bytes, FILE_HEADER);
    let mut at = 1u64;
    while !rest.is_empty() {
        let (frame, after) = next_frame(alloc, order, at, rest)?;
        frames.push(frame)?;
        rest = after;
        at += 1;
    }
    Ok(Listed::from_vec(frames))
}

/// The bytes from a place on.
fn rest_from(bytes: &[u8], at: usize) -> &[u8]
    requires { at ≤ length bytes.now }
    ensures { result.now ≡ drop at bytes.now }
{
    bytes.split_at(at).1
}

/// The frame of the first record, which is the one of that number, and the bytes after it.
fn next_frame(
    alloc: Global,
    order: Endianness,
    at: u64,
    bytes: &[u8],
) -> Result<(Frame, &[u8]), CaptureRefused>
    ensures read { IfOk result (λ next. frame_read order at bytes.now ≡ Ok next.0) }
    ensures seconds { IfOk result (λ next. next.0.seconds ≤ 4294967295) }
    ensures rest { IfOk result (λ next. next.1.now ≡ drop (16 + length next.0.bytes) bytes.now) }
    ensures there { IfOk result (λ next. 16 + length next.0.bytes ≤ length bytes.now) }
    ensures refused { IfErr result (IsRefusal (frame_read order at bytes.now)) }
{
    let captured = check_record(order, at, bytes)?;
    let frame = read_frame(alloc, order, captured, bytes)?;
    Ok((frame, rest_from(bytes, RECORD_HEADER + captured)))
}

/// The captured length of the first record, which is the one of that number.
fn check_record(order: Endianness, at: u64, bytes: &[u8]) -> Result<usize, BadCapture>
    ensures { MatchResult result (λ captured. (frame_read order at bytes.now ≡ Ok (frame_of order bytes.now)) × (captured ≡ captured_length order bytes.now) × (16 + captured ≤ length bytes.now)) (λ bad. frame_read order at bytes.now ≡ Err bad) }
{
    let short = BadCapture {
        at,
        cause: CaptureCause::RecordShort,
    };
    if bytes.len() < RECORD_HEADER {
        return Err(short);
    }
    let captured = number(order, bytes, CAPTURED) as usize;
    if bytes.len() < RECORD_HEADER + captured {
        return Err(short);
    }
    Ok(captured)
}

/// The frame of the first record, of which so many bytes were captured.
fn read_frame(
    alloc: Global,
    order: Endianness,
    captured: usize,
    bytes: &[u8],
) -> Result<Frame, NoMemory>
    requires told { captured ≡ captured_length order bytes.now }
    requires there { 16 + captured ≤ length bytes.now }
    ensures frame { IfOk result (λ frame. frame ≡ frame_of order bytes.now) }
    ensures seconds { IfOk result (λ frame. frame.seconds ≤ 4294967295) }
    ensures size { IfOk result (λ frame. length frame.bytes ≡ captured) }
{
    Ok(Frame {
        seconds: number(order, bytes, SECONDS),
        micros: number(order, bytes, MICROS),
        whole: number(order, bytes, WHOLE),
        bytes: Bytes::copied(alloc, &bytes[RECORD_HEADER..RECORD_HEADER + captured])?,
    })
}
