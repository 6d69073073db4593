//! Writing a text, and what became of it.
ghost use Rattle.std.specs.Prelude.{◌≤◌};
ghost use Rattle.lvs_model.specs.CaptureFiles.{header_bytes};
ghost use Rattle.lvs_run.specs.Written.{written_of, IsWrote, HasSinkCause};

use crate::output::{Output, text_of_round};
use lvs_outside::{Sink, write_all};
use lvs_pcap::append_header;
use lvs_types::RoundBook;
use std::alloc::Global;

/// What became of a text.
#[derive(Clone, Copy, Debug, PartialEq, Eq)]
pub(crate) enum Wrote {
    /// All of it was written.
    All,
    /// The sink failed, and not all of it was written.
    Prefix,
    /// There was no memory for it, and nothing was written.
    NoMemory,
}

/// Writes a text.
pub(crate) fn write_text<K: Sink>(text: &[u8], sink: &mut K) -> Wrote
    ensures text { IsWrote (K.written sink.old) (K.written sink.new) text.now result }
    ensures cause { HasSinkCause (K.faults sink.old) (K.faults sink.new) result }
{
    match write_all(sink, text) {
        Ok(()) => Wrote::All,
        Err(_) => Wrote::Prefix,
    }
}

/// Writes what is due of a round.
pub(crate) fn write_round<K: Sink>(
    alloc: Global,
    output: Output,
    book: &RoundBook,
    sink: &mut K,
) -> Wrote
    requires moment { book.now.moment ≤ 4294967295 }
    ensures text { IsWrote (K.written sink.old) (K.written sink.new) (written_of output book.now) result }
    ensures cause { HasSinkCause (K.faults sink.old) (K.faults sink.new) result }
{
    match text_of_round(alloc, output, book) {
        Ok(text) => write_text(text.as_slice(), sink),
        Err(_) => Wrote::NoMemory,
    }
}

/// Writes the header of a capture file.
pub(crate) fn write_header<K: Sink>(alloc: Global, sink: &mut K) -> Wrote
    ensures text { IsWrote (K.written sink.old) (K.written sink.new) header_bytes result }
    ensures cause { HasSinkCause (K.faults sink.old) (K.faults sink.new) result }
{
    let mut header = Vec::new(alloc);
    match append_header(&mut header) {
        Ok(()) => write_text(&header, sink),
        Err(_) => Wrote::NoMemory,
    }
}
