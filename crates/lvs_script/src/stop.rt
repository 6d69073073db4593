//! Why the reading of a script stops.
ghost use Rattle.std.specs.Prelude.{◌≡◌};
ghost use Rattle.lvs_script.specs.declared.stop.Stop.TheVariants as stop;
ghost use Rattle.lvs_script.specs.declared.stop.ScriptRefused.TheVariants as refusal;

use lvs_types::{NoMemory, ScriptCause};
use std::alloc::{AllocError, AllocFailed};
use thiserror::Error;

/// Why a script isn't read.
#[derive(Debug, PartialEq, Drop, Error)]
pub enum ScriptRefused {
    /// The number of the first refused line, from 1, and its cause.
    #[error("line {line}: {cause:?}")]
    Refused { line: u64, cause: ScriptCause },
    /// There was no memory.
    #[error("out of memory")]
    NoMemory,
}

impl From<NoMemory> for ScriptRefused {
    ghost from_gives = { λ _ e. e ≡ refusal.NoMemory };

    fn from(_: NoMemory) -> ScriptRefused {
        ScriptRefused::NoMemory
    }
}

/// Why a line isn't read.
#[derive(Debug, Drop)]
pub(crate) enum Stop {
    Refused(ScriptCause),
    NoMemory,
}

impl From<NoMemory> for Stop {
    ghost from_gives = { λ _ e. e ≡ stop.NoMemory };

    fn from(_: NoMemory) -> Stop {
        Stop::NoMemory
    }
}

impl From<ScriptCause> for Stop {
    ghost from_gives = { λ cause e. e ≡ stop.Refused cause };

    fn from(cause: ScriptCause) -> Stop {
        Stop::Refused(cause)
    }
}

impl<T: Drop> From<AllocFailed<T>> for Stop {
    ghost from_gives = { λ _ e. e ≡ stop.NoMemory };

    fn from(_: AllocFailed<T>) -> Stop {
        Stop::NoMemory
    }
}
