//! Why words are refused.
ghost use Rattle.std.specs.Prelude.{◌≡◌};
ghost use Rattle.lvs_admin.specs.declared.refused.WordsRefused.TheVariants as refusal;

use lvs_model::admin::BadWord;
use lvs_types::{NoMemory, WordsCause};
use thiserror::Error;

/// Why words are no line.
#[derive(Debug, Drop, Error)]
pub enum WordsRefused {
    /// The number of the refused word, from 0, or the number of words where one is missing.
    #[error("word {at}: {cause:?}")]
    Refused { at: usize, cause: WordsCause },
    /// There was no memory.
    #[error("out of memory")]
    NoMemory,
}

impl From<NoMemory> for WordsRefused {
    ghost from_gives = { λ _ e. e ≡ refusal.NoMemory };

    fn from(_: NoMemory) -> WordsRefused {
        WordsRefused::NoMemory
    }
}

/// A refused word.
pub(crate) fn bad(at: usize, cause: WordsCause) -> BadWord
    ensures { result ≡ record { at = at; cause = cause } }
{
    BadWord { at, cause }
}
