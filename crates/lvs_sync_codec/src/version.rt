//! The versions of the sync protocol, and how each reads a record.
ghost use Rattle.std.specs.Prelude.{◌≡◌, MatchResult, Ok, Err};
ghost use Rattle.lvs_sync_codec.specs.Codec.{reader};

use crate::new_record::read_new_record;
use crate::old_record::read_short_record;
use lvs_types::{BadSync, SyncItem};

/// A version of the sync protocol.
#[derive(Clone, Copy, Debug, PartialEq, Eq)]
pub(crate) enum Version {
    Zero,
    One,
}

impl Version {
    /// The first record of these bytes, and the bytes after it.
    pub(crate) fn read_one(self, bytes: &[u8]) -> Result<(SyncItem, &[u8]), BadSync>
        ensures { MatchResult result (λ read. reader self bytes.now ≡ Ok (read.0, read.1.now)) (λ cause. reader self bytes.now ≡ Err cause) }
    {
        match self {
            Version::Zero => read_short_record(bytes),
            Version::One => read_new_record(bytes),
        }
    }
}
