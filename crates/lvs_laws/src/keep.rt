//! The law Keep: a connection goes on with its server until it leaves by one of the named ways.
ghost use Rattle.std.specs.Prelude.{◌≡◌, List, Some};
ghost use Rattle.lvs_types.specs.declared.addr.DestId.{DestId};
ghost use Rattle.lvs_types.specs.declared.entry.Entry.{Entry};
ghost use Rattle.lvs_types.specs.declared.item.Item.{Item};
ghost use Rattle.lvs_model.specs.State.{State};
ghost use Rattle.lvs_model.specs.Step.{step, run};
ghost use Rattle.lvs_model.specs.WellFormed.{IsWellFormed};
ghost use Rattle.lvs_laws.specs.Keeping.{entry_of_id, met, IsKeptUnless, LeavesBy, LeavesIn};

/// After an item the entry of a connection's id is the same connection, or none has the id, and then the
/// connection left by one of the named ways. A packet meets a bound connection as it is.
pub fn connections_are_kept()
    ensures step { (s : State) (e : Entry) (next : Item) → IsWellFormed s → entry_of_id e.id s.entries ≡ Some e → IsKeptUnless (LeavesBy s e next) e (entry_of_id e.id (step s next).1.entries) }
    ensures runs { (s : State) (e : Entry) (items : List Item) → IsWellFormed s → entry_of_id e.id s.entries ≡ Some e → IsKeptUnless (LeavesIn s e items) e (entry_of_id e.id (run s items).1.entries) }
    ensures bound { (s : State) (e : Entry) (id : DestId) → e.server ≡ Some id → met s e ≡ (e, s) }
{}
