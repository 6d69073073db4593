//! Reports that were read, and the verdict on one.
use crate::{Bytes, ShownText};

/// A head, an act or a listing of a report.
#[derive(Debug, PartialEq, Drop)]
pub enum ReportLine {
    /// `round NUMBER at MOMENT workers W buckets B`.
    Head {
        /// The round's number, from 0.
        number: u64,
        /// In seconds.
        moment: u64,
        /// How many workers the round had.
        workers: u32,
        /// How many buckets the round had.
        buckets: u32,
    },
    /// `PLACE ACTOR.NUMBER REPLY`.
    Act {
        /// The act's number in its round's book, from 0.
        place: u64,
        /// 0 the clock, 1 control, 2 sync, 3 and up the workers.
        actor: u32,
        /// The item's number in its actor's list, from 0.
        number: u64,
        /// The text of the reply, at least one byte.
        reply: Bytes,
    },
    /// A listing, from its first line to the line `end`.
    Shown(ShownText),
}

/// Whether a report is legal for a script.
#[derive(Debug, PartialEq, Drop)]
pub enum Verdict {
    /// Each line is the director's, and none is missing.
    Legal,
    /// The first line, from 1, that isn't the director's, and both texts without their line feeds.
    Illegal {
        /// From 1.
        line: u64,
        /// The director's line, empty where it has none there.
        expected: Bytes,
        /// The report's line, empty at the report's end.
        found: Bytes,
    },
    /// The first line, from 1, that is outside the grammar.
    Unreadable {
        /// From 1; the number of lines plus 1 at the report's end.
        line: u64,
    },
}
