//! The verdict on a report: its text, and how the program ends with it.
ghost use Rattle.std.specs.Prelude.{◌≡◌, ◌++◌, OnOk};
ghost use Rattle.lvs_types.specs.declared.report.Verdict.TheVariants as verdict;
ghost use Rattle.lvs_model.specs.Tasks.{verdict_end as spec_verdict_end};
ghost use Rattle.lvs_model.specs.Verdicts.{verdict_text};
ghost use Rattle.lvs_run.specs.Written.{IsWrote, HasSinkCause};

use crate::writing::{Wrote, write_text};
use lvs_outside::Sink;
use lvs_text::{put, put_number};
use lvs_types::{Bytes, NoMemory, Status, Verdict};
use std::alloc::Global;

fn put_illegal(
    out: &mut Vec<u8>,
    line: u64,
    expected: &Bytes,
    found: &Bytes,
) -> Result<(), NoMemory>
    ensures { OnOk result (out.new.items ≡ out.old.items ++ verdict_text (verdict.Illegal line expected.now found.now)) }
{
    put(out, b"illegal line ")?;
    put_number(out, line)?;
    put(out, b"\nexpected ")?;
    put(out, expected.as_slice())?;
    put(out, b"\nfound ")?;
    put(out, found.as_slice())?;
    put(out, b"\n")?;
    Ok(())
}

fn put_unreadable(out: &mut Vec<u8>, line: u64) -> Result<(), NoMemory>
    ensures { OnOk result (out.new.items ≡ out.old.items ++ verdict_text (verdict.Unreadable line)) }
{
    put(out, b"unreadable line ")?;
    put_number(out, line)?;
    put(out, b"\n")?;
    Ok(())
}

/// Appends the text of a verdict.
fn put_verdict(out: &mut Vec<u8>, verdict: &Verdict) -> Result<(), NoMemory>
    ensures { OnOk result (out.new.items ≡ out.old.items ++ verdict_text verdict.now) }
{
    match verdict {
        Verdict::Legal => put(out, b"legal\n"),
        Verdict::Illegal {
            line,
            expected,
            found,
        } => put_illegal(out, *line, expected, found),
        Verdict::Unreadable { line } => put_unreadable(out, *line),
    }
}

/// Writes the text of a verdict.
pub(crate) fn write_verdict<K: Sink>(alloc: Global, verdict: &Verdict, sink: &mut K) -> Wrote
    ensures text { IsWrote (K.written sink.old) (K.written sink.new) (verdict_text verdict.now) result }
    ensures cause { HasSinkCause (K.faults sink.old) (K.faults sink.new) result }
{
    let mut text = Vec::new(alloc);
    match put_verdict(&mut text, verdict) {
        Ok(()) => write_text(&text, sink),
        Err(_) => Wrote::NoMemory,
    }
}

/// The status of a verdict whose text was written: Finished where the report is legal.
pub(crate) fn verdict_end(verdict: Verdict) -> Status
    ensures { result ≡ spec_verdict_end verdict }
{
    match verdict {
        Verdict::Legal => Status::Finished,
        other => Status::Illegal(other),
    }
}
