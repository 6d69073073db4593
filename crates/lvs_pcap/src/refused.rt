//! Why a capture is refused.
ghost use Rattle.std.specs.Prelude.{◌≡◌};
ghost use Rattle.lvs_pcap.specs.declared.refused.CaptureRefused.TheVariants as refusal;

use lvs_model::capture::BadCapture;
use lvs_types::{CaptureCause, NoMemory};
use std::alloc::{AllocError, AllocFailed};
use thiserror::Error;

/// Why a capture is refused.
#[derive(Debug, PartialEq, Drop, Error)]
pub enum CaptureRefused {
    /// The number of the refused record, and its cause. Record 0 is the file header; records count
    /// from 1.
    #[error("record {at}: {cause:?}")]
    Refused { at: u64, cause: CaptureCause },
    /// There was no memory.
    #[error("out of memory")]
    NoMemory,
}

impl From<BadCapture> for CaptureRefused {
    ghost from_gives = { λ bad refused. refused ≡ refusal.Refused bad.at bad.cause };

    fn from(bad: BadCapture) -> CaptureRefused {
        CaptureRefused::Refused {
            at: bad.at,
            cause: bad.cause,
        }
    }
}

impl From<NoMemory> for CaptureRefused {
    ghost from_gives = { λ _ refused. refused ≡ refusal.NoMemory };

    fn from(_: NoMemory) -> CaptureRefused {
        CaptureRefused::NoMemory
    }
}

impl From<AllocError> for CaptureRefused {
    ghost from_gives = { λ _ refused. refused ≡ refusal.NoMemory };

    fn from(_: AllocError) -> CaptureRefused {
        CaptureRefused::NoMemory
    }
}

impl<T: Drop> From<AllocFailed<T>> for CaptureRefused {
    ghost from_gives = { λ _ refused. refused ≡ refusal.NoMemory };

    fn from(_: AllocFailed<T>) -> CaptureRefused {
        CaptureRefused::NoMemory
    }
}
