//! How the program ended: its exit status and the line of standard error.
ghost use Rattle.std.specs.Prelude.{◌≡◌, ◌++◌, decimal, string_bytes, OnOk, IfOk};
ghost use Rattle.lvs_chart.specs.declared.status.ChartStatus.{ChartStatus};
ghost use Rattle.lvs_chart.specs.ExitCodes.{exit_number};
ghost use Rattle.lvs_chart.specs.FaultLines.{chart_fault_text};

use itoa::Buffer;
use lvs_types::NoMemory;
use std::alloc::Global;

/// How the program ended.
#[derive(Clone, Copy, Debug, PartialEq, Eq)]
pub enum ChartStatus {
    /// The picture, or the help, was written.
    Finished,
    /// The report's first line outside the grammar, from 1.
    ReportRefused { line: u64 },
    /// The number of the refused word, from 0, the program's name left out.
    WordsRefused { at: usize },
    /// The source failed.
    ReadFault,
    /// The sink failed.
    WriteFault,
    /// There was no memory.
    NoMemory,
    /// The input has more than 16,777,216 bytes.
    ReportTooLong,
}

/// The exit status, 0 for Finished (this project's profile).
pub fn exit_code(status: ChartStatus) -> u8
    ensures { result ≡ exit_number status }
{
    match status {
        ChartStatus::Finished => 0,
        ChartStatus::ReportRefused { .. } => 1,
        ChartStatus::WordsRefused { .. } => 2,
        ChartStatus::ReadFault => 3,
        ChartStatus::WriteFault => 4,
        ChartStatus::NoMemory => 5,
        ChartStatus::ReportTooLong => 6,
    }
}

/// Appends a text.
fn put(out: &mut String, text: &str) -> Result<(), NoMemory>
    ensures { OnOk result (string_bytes out.new ≡ string_bytes out.old ++ text.now) }
{
    out.push_str(text)?;
    Ok(())
}

/// Appends a number without leading zeros.
fn put_number(out: &mut String, number: u64) -> Result<(), NoMemory>
    ensures { OnOk result (string_bytes out.new ≡ string_bytes out.old ++ decimal number) }
{
    put(out, Buffer::new().format(number))
}

/// A report that is refused at a line.
fn put_report_refused(out: &mut String, line: u64) -> Result<(), NoMemory>
    ensures { OnOk result (string_bytes out.new ≡ string_bytes out.old ++ chart_fault_text (ChartStatus.ReportRefused line)) }
{
    put(out, "ipvsd_chart: report refused, line ")?;
    put_number(out, line)
}

/// Words of which one is refused.
fn put_words_refused(out: &mut String, at: usize) -> Result<(), NoMemory>
    ensures { OnOk result (string_bytes out.new ≡ string_bytes out.old ++ chart_fault_text (ChartStatus.WordsRefused at)) }
{
    put(out, "ipvsd_chart: words refused, word ")?;
    put_number(out, at as u64)
}

/// Appends the line of a status.
fn put_fault(out: &mut String, status: &ChartStatus) -> Result<(), NoMemory>
    ensures { OnOk result (string_bytes out.new ≡ string_bytes out.old ++ chart_fault_text status.now) }
{
    match status {
        ChartStatus::Finished => Ok(()),
        ChartStatus::ReportRefused { line } => put_report_refused(out, *line),
        ChartStatus::WordsRefused { at } => put_words_refused(out, *at),
        ChartStatus::ReadFault => put(out, "ipvsd_chart: read fault"),
        ChartStatus::WriteFault => put(out, "ipvsd_chart: write fault"),
        ChartStatus::NoMemory => put(out, "ipvsd_chart: no memory"),
        ChartStatus::ReportTooLong => put(out, "ipvsd_chart: report too long"),
    }
}

/// The line that standard error is told, without a line end; empty for Finished (this project's
/// profile).
pub fn fault_line(alloc: Global, status: ChartStatus) -> Result<String, NoMemory>
    ensures { IfOk result (λ line. string_bytes line ≡ chart_fault_text status) }
{
    let mut line = String::new(alloc);
    put_fault(&mut line, &status)?;
    Ok(line)
}
