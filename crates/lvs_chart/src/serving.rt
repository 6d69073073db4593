//! The call that the program makes.
ghost use Rattle.std.specs.Prelude.{◌≡◌, ◌≢◌, ◌↔◌, ◌+◌, ℕ, List, [], Ok, Err, Some, OnOk, map, string_bytes, length};
ghost use Rattle.std.specs.Io.KnownBytes.{Consumes, IsAtEnd};
ghost use Rattle.lvs_types.specs.Limits.{max_input};
ghost use Rattle.lvs_outside.specs.Faults.{Rose};
ghost use Rattle.lvs_types.specs.declared.report.ReportLine.{ReportLine};
ghost use Rattle.lvs_model.specs.ReportReading.{report_of};
ghost use Rattle.lvs_chart.specs.Words.{refused_word};

use crate::picture::draw_report;
use crate::status::ChartStatus;
use lvs_outside::{ReadStop, Sink, Source, read_all, write_all};
use lvs_report::ReportRefused;
use lvs_types::Bytes;
use std::alloc::Global;

/// What `--help` writes.
const HELP: &[u8] = b"usage: ipvsd_chart < REPORT > PICTURE.svg
       ipvsd_chart --help

Reads a report of ipvsd on standard input and writes a picture of its run on
standard output: the connections of each real server, from the report's `list`
texts, the replies of each round, and where edits, sweeps and records fell.

Exit status: 0 drawn; 1 report refused, with its line; 2 words refused; 3 read
fault; 4 write fault; 5 no memory; 6 more than 16,777,216 bytes of input.
";

/// The number of the first word that is refused; none where there is no word, or `--help` alone.
fn refused_at(words: &[String]) -> Option<usize>
    ensures { result ≡ refused_word (map string_bytes words.now) }
{
    match words {
        [] => None,
        [word] => if word.as_str() == "--help" {
            None
        } else {
            Some(0)
        },
        [word, ..] => if word.as_str() == "--help" {
            Some(1)
        } else {
            Some(0)
        },
    }
}

/// The picture of what the source has left, or why there is none.
fn read_picture<S: Source>(alloc: Global, source: &mut S) -> Result<Bytes, ChartStatus>
    ensures refused { (at : ℕ) → result ≡ Err (ChartStatus.ReportRefused at) → (bytes : List ℕ) × Consumes (S.left source.old) (S.left source.new) bytes × IsAtEnd (S.left source.new) × (report_of bytes ≡ Err at) }
    ensures drawn { OnOk result ((bytes : List ℕ) × (lines : List ReportLine) × Consumes (S.left source.old) (S.left source.new) bytes × IsAtEnd (S.left source.new) × (report_of bytes ≡ Ok lines)) }
    ensures too_long { result ≡ Err ChartStatus.ReportTooLong → (bytes : List ℕ) × (length bytes ≡ max_input + 1) × Consumes (S.left source.old) (S.left source.new) bytes }
    ensures words { (at : ℕ) → result ≢ Err (ChartStatus.WordsRefused at) }
    ensures unfinished { result ≢ Err ChartStatus.Finished }
    ensures unwritten { result ≢ Err ChartStatus.WriteFault }
    ensures fault { result ≡ Err ChartStatus.ReadFault → Rose (S.faults source.old) (S.faults source.new) }
    ensures kept { result ≢ Err ChartStatus.ReadFault → S.faults source.new ≡ S.faults source.old }
{
    let bytes = match read_all(alloc, source) {
        Ok(bytes) => bytes,
        Err(ReadStop::Fault) => return Err(ChartStatus::ReadFault),
        Err(ReadStop::TooLong) => return Err(ChartStatus::ReportTooLong),
        Err(ReadStop::NoMemory) => return Err(ChartStatus::NoMemory),
    };
    match draw_report(alloc, &bytes) {
        Ok(picture) => Ok(picture),
        Err(ReportRefused::Unreadable { line }) => Err(ChartStatus::ReportRefused { line }),
        Err(ReportRefused::NoMemory) => Err(ChartStatus::NoMemory),
    }
}

/// Writes a text whole, or a prefix of it.
fn write_text<K: Sink>(sink: &mut K, text: &[u8]) -> ChartStatus
    ensures written { result ≢ ChartStatus.Finished → result ≡ ChartStatus.WriteFault }
    ensures rose { result ≡ ChartStatus.WriteFault → Rose (K.faults sink.old) (K.faults sink.new) }
    ensures kept { result ≢ ChartStatus.WriteFault → K.faults sink.new ≡ K.faults sink.old }
{
    match write_all(sink, text) {
        Ok(()) => ChartStatus::Finished,
        Err(_) => ChartStatus::WriteFault,
    }
}

/// Draws the report that the source has left onto the sink, or writes the help where the one word
/// is `--help`. The picture is whole before its first byte is written.
pub fn serve_chart<S: Source, K: Sink>(
    alloc: Global,
    words: &[String],
    source: &mut S,
    sink: &mut K,
) -> ChartStatus
    ensures refused { (at : ℕ) → result ≡ ChartStatus.ReportRefused at → (bytes : List ℕ) × Consumes (S.left source.old) (S.left source.new) bytes × IsAtEnd (S.left source.new) × (report_of bytes ≡ Err at) }
    ensures drawn { result ≡ ChartStatus.Finished → map string_bytes words.now ≡ [] → (bytes : List ℕ) × (lines : List ReportLine) × Consumes (S.left source.old) (S.left source.new) bytes × IsAtEnd (S.left source.new) × (report_of bytes ≡ Ok lines) }
    ensures words { (at : ℕ) → (result ≡ ChartStatus.WordsRefused at) ↔ (refused_word (map string_bytes words.now) ≡ Some at) }
    ensures too_long { result ≡ ChartStatus.ReportTooLong → (bytes : List ℕ) × (length bytes ≡ max_input + 1) × Consumes (S.left source.old) (S.left source.new) bytes }
    ensures unread { map string_bytes words.now ≢ [] → S.left source.new ≡ S.left source.old }
    ensures nothing { result ≢ ChartStatus.Finished → result ≢ ChartStatus.WriteFault → K.written sink.new ≡ K.written sink.old }
    ensures source_rose { result ≡ ChartStatus.ReadFault → Rose (S.faults source.old) (S.faults source.new) }
    ensures source_kept { result ≢ ChartStatus.ReadFault → S.faults source.new ≡ S.faults source.old }
    ensures sink_rose { result ≡ ChartStatus.WriteFault → Rose (K.faults sink.old) (K.faults sink.new) }
    ensures sink_kept { result ≢ ChartStatus.WriteFault → K.faults sink.new ≡ K.faults sink.old }
{
    if let Some(at) = refused_at(words) {
        return ChartStatus::WordsRefused { at };
    }
    if !words.is_empty() {
        return write_text(sink, HELP);
    }
    match read_picture(alloc, source) {
        Ok(picture) => write_text(sink, picture.as_slice()),
        Err(status) => status,
    }
}
