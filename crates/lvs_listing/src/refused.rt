//! Why saved tables aren't read back.
ghost use Rattle.std.specs.Prelude.{◌≡◌};
ghost use Rattle.lvs_listing.specs.declared.refused.RestoreRefused.TheVariants as refusal;

use lvs_types::{NoMemory, WordsCause};
use std::alloc::AllocFailed;
use thiserror::Error;

/// Why a text is no saved tables.
#[derive(Debug, PartialEq, Drop, Error)]
pub enum RestoreRefused {
    /// The number of the first refused line, from 1; of its first refused word, from 0, or the
    /// number of words where one is missing; and the cause.
    #[error("line {line}, word {at}: {cause:?}")]
    Refused {
        /// From 1.
        line: u64,
        /// From 0.
        at: usize,
        /// What is wrong with the word.
        cause: WordsCause,
    },
    /// There was no memory.
    #[error("out of memory")]
    NoMemory,
}

impl From<NoMemory> for RestoreRefused {
    ghost from_gives = { λ _ e. e ≡ refusal.NoMemory };

    fn from(_: NoMemory) -> RestoreRefused {
        RestoreRefused::NoMemory
    }
}

impl<T: Drop> From<AllocFailed<T>> for RestoreRefused {
    ghost from_gives = { λ _ e. e ≡ refusal.NoMemory };

    fn from(_: AllocFailed<T>) -> RestoreRefused {
        RestoreRefused::NoMemory
    }
}
