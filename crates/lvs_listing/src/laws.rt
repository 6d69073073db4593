//! A law of saved tables. A function without a body carries it.
ghost use Rattle.std.specs.Prelude.{◌≡◌, List, [], Ok};
ghost use Rattle.lvs_types.specs.declared.snapshot.Snapshot.{Snapshot};
ghost use Rattle.lvs_types.specs.declared.command.Command.{Command};
ghost use Rattle.lvs_model.specs.State.{State};
ghost use Rattle.lvs_model.specs.Listings.{save_text};
ghost use Rattle.lvs_model.specs.Restoring.{restored};
ghost use Rattle.lvs_listing.specs.Savable.{IsSavable, HasTables, after};

/// What `save` writes of tables that commands can leave is read back by `restore`, and its
/// commands make of a director without services and servers one with the same services, whose
/// schedulers begin anew, and the same servers in the same order.
pub fn saved_tables_come_back()
    ensures { (tables : Snapshot) → IsSavable tables → (commands : List Command) × (restored (save_text tables) ≡ Ok commands) × ((s : State) → s.services ≡ [] → s.dests ≡ [] → HasTables tables (after s commands)) }
{}
