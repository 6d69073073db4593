//! A law of sync messages.
ghost use Rattle.std.specs.Prelude.{ℕ, List};
ghost use Rattle.lvs_types.specs.declared.sync.SyncRecord.{SyncRecord};
ghost use Rattle.lvs_sync_codec.specs.RoundTrip.{NewReadsBack, OldReadsBack};

/// What a director sends is read again: in version 1 as the same sync id and records, and in
/// version 0 as the same sync id and the records with mark 0 and timeout 0.
pub fn written_is_read_again()
    ensures version_1 { (id : ℕ) (records : List SyncRecord) → NewReadsBack id records }
    ensures version_0 { (id : ℕ) (records : List SyncRecord) → OldReadsBack id records }
{}
