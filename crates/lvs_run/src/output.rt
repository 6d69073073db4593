//! What is written of a round.
ghost use Rattle.std.specs.Prelude.{◌≡◌, ◌≤◌, ◌++◌, OnOk, IfOk};
ghost use Rattle.lvs_model.specs.Captured.{sent_frame, frame_of_reply};
ghost use Rattle.lvs_model.specs.CaptureFiles.{record_bytes};
ghost use Rattle.lvs_run.specs.Written.{written_of, record_of, records_of};

use lvs_pcap::append_packet;
use lvs_report::print_round;
use lvs_types::{Bytes, NoMemory, Noted, Reply, RoundBook};
use std::alloc::Global;

/// What is written of each round.
#[derive(Clone, Copy, Debug, PartialEq, Eq)]
pub(crate) enum Output {
    /// Its report.
    Report,
    /// The records of the packets that were sent, as a capture file has them.
    Frames,
    /// Nothing: what is due is written behind the last round.
    Nothing,
}

/// Appends the record of a packet that was sent in that second. A packet has at most 65,535 bytes;
/// for one of more than four bytes can count there would be no room.
fn append_sent(out: &mut Vec<u8>, seconds: u32, packet: &Bytes) -> Result<(), NoMemory>
    ensures { OnOk result (out.new.items ≡ out.old.items ++ record_bytes (sent_frame seconds packet.now)) }
{
    let packet = packet.as_slice();
    if packet.len() > u32::MAX as usize {
        return Err(NoMemory);
    }
    append_packet(out, seconds, packet)
}

/// Appends the record of a reply that sends a packet on, and nothing for any other.
fn append_reply(out: &mut Vec<u8>, seconds: u32, reply: &Reply) -> Result<(), NoMemory>
    ensures { OnOk result (out.new.items ≡ out.old.items ++ record_of (frame_of_reply seconds reply.now)) }
{
    match reply {
        Reply::Forward { bytes, .. } => append_sent(out, seconds, bytes),
        Reply::Outward(bytes) => append_sent(out, seconds, bytes),
        _ => Ok(()),
    }
}

/// Appends the records of the packets that acts sent in that second, in order of place.
fn append_acts(out: &mut Vec<u8>, seconds: u32, acts: &[Noted]) -> Result<(), NoMemory>
    ensures { OnOk result (out.new.items ≡ out.old.items ++ records_of seconds acts.now) }
{
    for act in acts {
        append_reply(out, seconds, &act.reply)?;
    }
    Ok(())
}

/// The records of the packets that a round sent.
fn sent_records(alloc: Global, book: &RoundBook) -> Result<Bytes, NoMemory>
    requires moment { book.now.moment ≤ 4294967295 }
    ensures { IfOk result (λ text. text ≡ written_of Output.Frames book.now) }
{
    let mut out = Vec::new(alloc);
    append_acts(&mut out, book.moment as u32, book.acts.as_slice())?;
    Ok(Bytes::from_vec(out))
}

/// What is written of a round.
pub(crate) fn text_of_round(
    alloc: Global,
    output: Output,
    book: &RoundBook,
) -> Result<Bytes, NoMemory>
    requires moment { book.now.moment ≤ 4294967295 }
    ensures { IfOk result (λ text. text ≡ written_of output book.now) }
{
    match output {
        Output::Report => print_round(alloc, book),
        Output::Frames => sent_records(alloc, book),
        Output::Nothing => Ok(Bytes::new(alloc)),
    }
}
