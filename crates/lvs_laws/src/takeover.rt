//! The law Takeover: the packets of a connection go to its address and port, also where another director recorded them.
ghost use Rattle.std.specs.Prelude.{◌≡◌, ℕ, List, Some};
ghost use Rattle.lvs_types.specs.declared.entry.Entry.{Entry};
ghost use Rattle.lvs_types.specs.declared.head.Head.{Head};
ghost use Rattle.lvs_types.specs.declared.item.Item.{Item};
ghost use Rattle.lvs_types.specs.declared.item.Item.TheVariants as item;
ghost use Rattle.lvs_types.specs.declared.service.Proto.{Proto};
ghost use Rattle.lvs_types.specs.declared.sync.SyncRecord.{SyncRecord};
ghost use Rattle.lvs_model.specs.Learning.{recorded_key};
ghost use Rattle.lvs_model.specs.Lookups.{entry_at};
ghost use Rattle.lvs_model.specs.State.{State};
ghost use Rattle.lvs_model.specs.Step.{step, run};
ghost use Rattle.lvs_model.specs.WellFormed.{IsWellFormed};
ghost use Rattle.lvs_laws.specs.Keeping.{entry_of_id};
ghost use Rattle.lvs_laws.specs.TakingOver.{IsAsRecorded, IsPlainPacketOf, IsReusingPacketOf, IsSentOn, IsTakenOver, IsThereAsRecorded, TakesUp, after_record};

/// A packet of a connection's key that doesn't meet the test of reuse goes to the connection's address and
/// port, or is dropped, since the server was removed or the tunnel packet would be too long. A packet that
/// meets it takes up the connection's place, and the connection has ended; or it is too long for the tunnel
/// that its new connection would go through: it is dropped, and the connection and all else stay.
pub fn packets_follow_their_connection()
    ensures sent { (s : State) (e : Entry) (mark : ℕ) (bytes : List ℕ) (head : Head) (proto : Proto) → IsWellFormed s → entry_of_id e.id s.entries ≡ Some e → IsPlainPacketOf s e mark bytes head proto → IsSentOn s e head bytes e.daddr e.dport (step s (item.Incoming mark bytes)).0 }
    ensures reusing { (s : State) (e : Entry) (mark : ℕ) (bytes : List ℕ) (head : Head) (proto : Proto) → IsWellFormed s → entry_of_id e.id s.entries ≡ Some e → IsReusingPacketOf s e mark bytes head proto → TakesUp s e head (step s (item.Incoming mark bytes)) }
{}

/// After an accepted connection record the entry of its key is there, with the address and port that were
/// recorded. Through all later items, as long as an entry of its id is there, it stays so, and its packets
/// go to the recorded address, with the bytes for the recorded port.
pub fn recorded_connections_are_taken_over()
    ensures there { (s : State) (sync_id : ℕ) (r : SyncRecord) → IsWellFormed s → IsTakenOver s sync_id r → IsThereAsRecorded r (entry_at (recorded_key r) (after_record s sync_id r).entries) }
    ensures stays { (s : State) (sync_id : ℕ) (r : SyncRecord) (e : Entry) (items : List Item) (later : Entry)
        → IsWellFormed s → IsTakenOver s sync_id r → entry_at (recorded_key r) (after_record s sync_id r).entries ≡ Some e
        → entry_of_id e.id (run (after_record s sync_id r) items).1.entries ≡ Some later → IsAsRecorded r later }
    ensures lasts { (s : State) (sync_id : ℕ) (r : SyncRecord) (e : Entry) (items : List Item) (later : Entry) (mark : ℕ) (bytes : List ℕ) (head : Head) (proto : Proto)
        → IsWellFormed s → IsTakenOver s sync_id r → entry_at (recorded_key r) (after_record s sync_id r).entries ≡ Some e
        → entry_of_id e.id (run (after_record s sync_id r) items).1.entries ≡ Some later
        → IsPlainPacketOf (run (after_record s sync_id r) items).1 later mark bytes head proto
        → IsSentOn (run (after_record s sync_id r) items).1 later head bytes r.daddr r.dport (step (run (after_record s sync_id r) items).1 (item.Incoming mark bytes)).0 }
{}
