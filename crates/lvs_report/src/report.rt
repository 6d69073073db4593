//! Reading a report.
ghost use Rattle.std.specs.Prelude.{◌≡◌, ℕ, IfOk, OnOk, Ok, Err, Some, None};
ghost use Rattle.lvs_model.specs.ReportReading.{report_line_read, report_of};
ghost use Rattle.lvs_report.specs.Reader.{with_line};

use crate::reader::ReportReader;
use crate::refused::{ReportRefused, Stop};
use lvs_lines::cut_line;
use lvs_types::ReportLine;
use std::alloc::Global;

/// The line of that number.
fn take_numbered(reader: &mut ReportReader, number: u64, line: &[u8]) -> Result<(), ReportRefused>
    ensures ok { OnOk result (with_line reader.old line.now ≡ Some reader.new) }
    ensures refused { (at : ℕ) → result ≡ Err (ReportRefused.Unreadable at) → (at ≡ number) × (report_line_read reader.old.open_listing line.now ≡ None) }
{
    match reader.take_line(line) {
        Ok(()) => Ok(()),
        Err(Stop::Unreadable) => Err(ReportRefused::Unreadable { line: number }),
        Err(Stop::NoMemory) => Err(ReportRefused::NoMemory),
    }
}

/// The heads, acts and listings of a report in order, to its last byte, or the number of its first
/// line outside the grammar (this project's profile). A line is walked once to find its end and once
/// to read it.
pub fn read_report(alloc: Global, bytes: &[u8]) -> Result<Vec<ReportLine>, ReportRefused>
    ensures accepted { IfOk result (λ lines. report_of bytes.now ≡ Ok lines.items) }
    ensures refused { (at : ℕ) → result ≡ Err (ReportRefused.Unreadable at) → report_of bytes.now ≡ Err at }
{
    let mut reader = ReportReader::new(alloc);
    let mut number = 1;
    let mut rest = bytes;
    while let Some((line, after)) = cut_line(rest) {
        take_numbered(&mut reader, number, line)?;
        number += 1;
        rest = after;
    }
    reader.finish(number, rest)
}
