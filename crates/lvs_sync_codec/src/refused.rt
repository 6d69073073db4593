//! Why a sync message was not read.
use lvs_types::BadSync;
use std::alloc::{AllocError, AllocFailed};
use thiserror::Error;

/// Why a sync message was not read.
#[derive(Debug, Drop, Error)]
pub enum MessageRefused {
    /// The bytes are no sync message, for the first cause that is met.
    #[error("not a sync message: {0:?}")]
    Bad(BadSync),
    /// There was no memory for the records.
    #[error("no memory")]
    NoMemory,
}

impl From<BadSync> for MessageRefused {
    ghost use Rattle.std.specs.Prelude.{◌≡◌};
    ghost use Rattle.lvs_sync_codec.specs.declared.refused.MessageRefused.TheVariants.{Bad};

    ghost from_gives = { λ cause refused. refused ≡ Bad cause };

    fn from(cause: BadSync) -> Self {
        MessageRefused::Bad(cause)
    }
}

impl From<AllocError> for MessageRefused {
    ghost use Rattle.std.specs.Prelude.{◌≡◌};
    ghost use Rattle.lvs_sync_codec.specs.declared.refused.MessageRefused.TheVariants.{NoMemory};

    ghost from_gives = { λ _ refused. refused ≡ NoMemory };

    fn from(_: AllocError) -> Self {
        MessageRefused::NoMemory
    }
}

impl<T: Drop> From<AllocFailed<T>> for MessageRefused {
    ghost use Rattle.std.specs.Prelude.{◌≡◌};
    ghost use Rattle.lvs_sync_codec.specs.declared.refused.MessageRefused.TheVariants.{NoMemory};

    ghost from_gives = { λ _ refused. refused ≡ NoMemory };

    fn from(_: AllocFailed<T>) -> Self {
        MessageRefused::NoMemory
    }
}
