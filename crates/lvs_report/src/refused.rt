//! Why a report isn't read.
ghost use Rattle.std.specs.Prelude.{◌≡◌};
ghost use Rattle.lvs_report.specs.declared.refused.Stop.TheVariants as stop;
ghost use Rattle.lvs_report.specs.declared.refused.ReportRefused.TheVariants as refusal;

use lvs_types::NoMemory;
use std::alloc::{AllocError, AllocFailed};
use thiserror::Error;

/// Why a report isn't read.
#[derive(Debug, PartialEq, Drop, Error)]
pub enum ReportRefused {
    /// The number of the first line outside the grammar, from 1; the number of lines and 1 where
    /// the report ends inside a listing.
    #[error("line {line} is outside the grammar of reports")]
    Unreadable { line: u64 },
    /// There was no memory.
    #[error("out of memory")]
    NoMemory,
}

impl From<NoMemory> for ReportRefused {
    ghost from_gives = { λ _ e. e ≡ refusal.NoMemory };

    fn from(_: NoMemory) -> ReportRefused {
        ReportRefused::NoMemory
    }
}

/// Why a line isn't read.
#[derive(Debug, Drop)]
pub(crate) enum Stop {
    Unreadable,
    NoMemory,
}

impl From<NoMemory> for Stop {
    ghost from_gives = { λ _ e. e ≡ stop.NoMemory };

    fn from(_: NoMemory) -> Stop {
        Stop::NoMemory
    }
}

impl From<AllocError> for Stop {
    ghost from_gives = { λ _ e. e ≡ stop.NoMemory };

    fn from(_: AllocError) -> Stop {
        Stop::NoMemory
    }
}

impl<T: Drop> From<AllocFailed<T>> for Stop {
    ghost from_gives = { λ _ e. e ≡ stop.NoMemory };

    fn from(_: AllocFailed<T>) -> Stop {
        Stop::NoMemory
    }
}
