//! The line that the program prints on standard error.
ghost use Rattle.std.specs.Prelude.{◌≡◌, ◌++◌, decimal, string_bytes, OnOk, IfOk};
ghost use Rattle.lvs_types.specs.declared.status.Status.{Status};
ghost use Rattle.lvs_model.specs.FaultLines.{words_cause_text, script_cause_text, capture_cause_text, fault_text};

use itoa::Buffer;
use lvs_types::{CaptureCause, NoMemory, ScriptCause, Status, WordsCause};
use std::alloc::Global;

/// Appends a text.
fn put(out: &mut String, text: &str) -> Result<(), NoMemory>
    ensures { OnOk result (string_bytes out.new ≡ string_bytes out.old ++ text.now) }
{
    out.push_str(text)?;
    Ok(())
}

/// Appends a number without leading zeros.
fn put_number(out: &mut String, number: u64) -> Result<(), NoMemory>
    ensures { OnOk result (string_bytes out.new ≡ string_bytes out.old ++ decimal number) }
{
    put(out, Buffer::new().format(number))
}

fn words_cause_name(cause: WordsCause) -> &'static str
    ensures { result.now ≡ words_cause_text cause }
{
    match cause {
        WordsCause::UnknownOption => "UnknownOption",
        WordsCause::Missing => "Missing",
        WordsCause::Repeated => "Repeated",
        WordsCause::BadNumber => "BadNumber",
        WordsCause::BadAddress => "BadAddress",
        WordsCause::BadScheduler => "BadScheduler",
        WordsCause::ZeroPort => "ZeroPort",
        WordsCause::Conflict => "Conflict",
        WordsCause::Extra => "Extra",
    }
}

fn put_script_cause(out: &mut String, cause: ScriptCause) -> Result<(), NoMemory>
    ensures { OnOk result (string_bytes out.new ≡ string_bytes out.old ++ script_cause_text cause) }
{
    match cause {
        ScriptCause::UnknownLine => put(out, "UnknownLine"),
        ScriptCause::WordCount => put(out, "WordCount"),
        ScriptCause::LocalPlace => put(out, "LocalPlace"),
        ScriptCause::BeforeAt => put(out, "BeforeAt"),
        ScriptCause::BadAddress => put(out, "BadAddress"),
        ScriptCause::BadNumber => put(out, "BadNumber"),
        ScriptCause::TimeBack => put(out, "TimeBack"),
        ScriptCause::TooManyRounds => put(out, "TooManyRounds"),
        ScriptCause::BadHex => put(out, "BadHex"),
        ScriptCause::BadWords { at, cause } => {
            put(out, "BadWords ")?;
            put_number(out, at as u64)?;
            put(out, " ")?;
            put(out, words_cause_name(cause))
        }
        ScriptCause::BadSetting => put(out, "BadSetting"),
        ScriptCause::TooManyItems => put(out, "TooManyItems"),
    }
}

fn put_capture_cause(out: &mut String, cause: CaptureCause) -> Result<(), NoMemory>
    ensures { OnOk result (string_bytes out.new ≡ string_bytes out.old ++ capture_cause_text cause) }
{
    match cause {
        CaptureCause::Short => put(out, "Short"),
        CaptureCause::Magic => put(out, "Magic"),
        CaptureCause::Version => put(out, "Version"),
        CaptureCause::Link => put(out, "Link"),
        CaptureCause::RecordShort => put(out, "RecordShort"),
        CaptureCause::TooManyRounds => put(out, "TooManyRounds"),
        CaptureCause::TooManyItems => put(out, "TooManyItems"),
    }
}

/// A script that is refused at a line.
fn put_script_refused(out: &mut String, line: u64, cause: ScriptCause) -> Result<(), NoMemory>
    ensures { OnOk result (string_bytes out.new ≡ string_bytes out.old ++ fault_text (Status.ScriptRefused line cause)) }
{
    put(out, "ipvsd: script refused, line ")?;
    put_number(out, line)?;
    put(out, ": ")?;
    put_script_cause(out, cause)
}

/// Words of which one is refused.
fn put_words_refused(out: &mut String, at: usize) -> Result<(), NoMemory>
    ensures { OnOk result (string_bytes out.new ≡ string_bytes out.old ++ fault_text (Status.WordsRefused at)) }
{
    put(out, "ipvsd: words refused, word ")?;
    put_number(out, at as u64)
}

/// A capture that is refused at a record.
fn put_capture_refused(out: &mut String, at: u64, cause: CaptureCause) -> Result<(), NoMemory>
    ensures { OnOk result (string_bytes out.new ≡ string_bytes out.old ++ fault_text (Status.CaptureRefused at cause)) }
{
    put(out, "ipvsd: capture refused, record ")?;
    put_number(out, at)?;
    put(out, ": ")?;
    put_capture_cause(out, cause)
}

/// Appends the line of a status.
fn put_fault(out: &mut String, status: &Status) -> Result<(), NoMemory>
    ensures { OnOk result (string_bytes out.new ≡ string_bytes out.old ++ fault_text status.now) }
{
    match status {
        Status::Finished => Ok(()),
        Status::ScriptRefused { line, cause } => put_script_refused(out, *line, *cause),
        Status::WordsRefused { at } => put_words_refused(out, *at),
        Status::ReadFault => put(out, "ipvsd: read fault"),
        Status::WriteFault => put(out, "ipvsd: write fault"),
        Status::NoMemory => put(out, "ipvsd: no memory"),
        Status::ScriptTooLong => put(out, "ipvsd: script too long"),
        Status::Illegal(_) => put(out, "ipvsd: illegal report"),
        Status::CaptureRefused { at, cause } => put_capture_refused(out, *at, *cause),
    }
}

/// The line that the program prints on standard error for a status, without a line end; empty for
/// Finished. A cause is told by its name, that of ipvsadm words with the word's number before it.
pub fn fault_line(alloc: Global, status: &Status) -> Result<String, NoMemory>
    ensures { IfOk result (λ line. string_bytes line ≡ fault_text status.now) }
{
    let mut line = String::new(alloc);
    put_fault(&mut line, status)?;
    Ok(line)
}
