//! The kind of a line outside listings.
ghost use Rattle.std.specs.Prelude.{◌≡◌, List, ℕ, IfOk};
ghost use Rattle.lvs_model.specs.ReportReading.{line_of};
ghost use Rattle.lvs_check.specs.Kinds.{kind_in, kind_read, sizes_in, said_by, AreGood};
ghost use Rattle.std.specs.Bool.{IsTrue};
ghost use Rattle.lvs_model.specs.Checking.{are_sizes};
ghost use Rattle.lvs_check.specs.Texts.{IsWhole};

use lvs_report::{ReportRefused, read_report};
use lvs_types::{NoMemory, ReportLine};
use std::alloc::Global;

/// The workers and buckets of all rounds.
#[derive(Clone, Copy, Debug, PartialEq, Eq)]
pub(crate) struct RoundSizes {
    pub workers: u32,
    pub buckets: u32,
}

/// One worker and one bucket.
pub(crate) const ONE_EACH: RoundSizes = RoundSizes {
    workers: 1,
    buckets: 1,
};

/// What a line outside listings is.
#[derive(Clone, Copy, Debug, PartialEq, Eq)]
pub(crate) enum LineKind {
    /// Outside the grammar.
    Unknown,
    /// A head with its workers and buckets.
    Head(RoundSizes),
    /// `PLACE ACTOR.NUMBER REPLY`.
    Act { place: u64, actor: u32, number: u64 },
    /// The first line of a listing.
    Listing,
}

/// The kind of the one line that was read.
fn kind_of_read(lines: &[ReportLine]) -> LineKind
    ensures { result ≡ kind_read lines.now }
{
    match lines {
        [
            ReportLine::Head {
                workers,
                buckets,
                ..
            },
        ] => LineKind::Head(RoundSizes {
            workers: *workers,
            buckets: *buckets,
        }),
        [
            ReportLine::Act {
                place,
                actor,
                number,
                ..
            },
        ] => LineKind::Act {
            place: *place,
            actor: *actor,
            number: *number,
        },
        _ => LineKind::Unknown,
    }
}

/// The kind of a line, which is given with its line feed: read as a report, a head and an act are
/// whole with it, and behind the first line of a listing the report's end is refused.
pub(crate) fn kind_of(alloc: Global, whole: &[u8]) -> Result<LineKind, NoMemory>
    ensures { (text : List ℕ) → IsWhole whole.now text → IfOk result (λ kind. kind ≡ kind_in (line_of text)) }
{
    match read_report(alloc, whole) {
        Ok(lines) => Ok(kind_of_read(&lines)),
        Err(ReportRefused::Unreadable { line }) => Ok(if line == 1 {
            LineKind::Unknown
        } else {
            LineKind::Listing
        }),
        Err(ReportRefused::NoMemory) => Err(NoMemory),
    }
}

/// Whether workers and buckets are in their limits.
fn are_sizes(sizes: RoundSizes) -> bool
    ensures value { result ≡ are_sizes sizes.workers sizes.buckets }
    ensures good { IsTrue result → AreGood sizes }
{
    1 <= sizes.workers && sizes.workers <= 16 && 1 <= sizes.buckets && sizes.buckets <= 256
}

/// The workers and buckets that all heads must say, by the first line: where it is no head with
/// both in their limits, it is refused for what else it says.
pub(crate) fn sizes_said(kind: LineKind) -> RoundSizes
    ensures value { sizes_in result ≡ said_by kind }
    ensures good { AreGood result }
{
    match kind {
        LineKind::Head(sizes) => if are_sizes(sizes) { sizes } else { ONE_EACH },
        _ => ONE_EACH,
    }
}
