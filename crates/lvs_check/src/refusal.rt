//! A line of the report, and how it is refused.
ghost use Rattle.std.specs.Prelude.{◌≡◌, IfOk};
ghost use Rattle.lvs_model.specs.Progress.{unreadable_if, checked_text};
ghost use Rattle.lvs_check.specs.Judging.{text_at, Judges};
ghost use Rattle.lvs_check.specs.declared.refusal.Stop.TheVariants as refusal;
ghost use Rattle.lvs_types.specs.declared.report.Verdict.TheVariants as verdict;

use lvs_types::{Bytes, NoMemory, Verdict};
use std::alloc::{AllocError, AllocFailed, Global};

/// A line of the report without its line feed.
#[derive(Clone, Copy)]
pub(crate) struct LineText<'a> {
    /// From 1.
    pub number: u64,
    pub text: &'a [u8],
}

/// Why the check stops at a line.
#[derive(Debug, Drop)]
pub(crate) enum Stop {
    Refused(Verdict),
    NoMemory,
}

impl From<NoMemory> for Stop {
    ghost from_gives = { λ _ e. e ≡ refusal.NoMemory };

    fn from(_: NoMemory) -> Stop {
        Stop::NoMemory
    }
}

impl From<AllocError> for Stop {
    ghost from_gives = { λ _ e. e ≡ refusal.NoMemory };

    fn from(_: AllocError) -> Stop {
        Stop::NoMemory
    }
}

impl<T: Drop> From<AllocFailed<T>> for Stop {
    ghost from_gives = { λ _ e. e ≡ refusal.NoMemory };

    fn from(_: AllocFailed<T>) -> Stop {
        Stop::NoMemory
    }
}

/// The refusal of a line that isn't in the grammar, or not in order.
pub(crate) fn unreadable(at: LineText<'_>) -> Stop
    ensures { result ≡ refusal.Refused (verdict.Unreadable at.entry.number) }
{
    Stop::Refused(Verdict::Unreadable { line: at.number })
}

/// The refusal of a line where the director gives another one.
pub(crate) fn illegal(alloc: Global, at: LineText<'_>, expected: &[u8]) -> Result<Stop, NoMemory>
    ensures { IfOk result (λ stop. stop ≡ refusal.Refused (verdict.Illegal at.entry.number expected.now at.entry.text.now)) }
{
    Ok(Stop::Refused(Verdict::Illegal {
        line: at.number,
        expected: Bytes::copied(alloc, expected)?,
        found: Bytes::copied(alloc, at.text)?,
    }))
}

/// Refuses a line that isn't in order.
pub(crate) fn unreadable_if(fails: bool, at: LineText<'_>) -> Result<(), Stop>
    ensures { Judges result tt (unreadable_if fails (text_at at.entry)) }
{
    if fails { Err(unreadable(at)) } else { Ok(()) }
}

/// Refuses a line whose text isn't the director's.
pub(crate) fn check_text(alloc: Global, at: LineText<'_>, expected: &[u8]) -> Result<(), Stop>
    ensures { Judges result tt (checked_text (text_at at.entry) expected.now) }
{
    if at.text == expected {
        Ok(())
    } else {
        Err(illegal(alloc, at, expected)?)
    }
}

/// The verdict where the check stops.
pub(crate) fn verdict_of(stop: Stop) -> Result<Verdict, NoMemory>
    ensures { IfOk result (λ verdict. stop ≡ refusal.Refused verdict) }
{
    match stop {
        Stop::Refused(verdict) => Ok(verdict),
        Stop::NoMemory => Err(NoMemory),
    }
}
