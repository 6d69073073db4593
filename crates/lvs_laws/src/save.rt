//! The law of saved tables: what commands leave can be saved, and comes back. A function without a body carries each part.
ghost use Rattle.std.specs.Prelude.{◌≡◌, ℕ, List, [], Ok};
ghost use Rattle.std.specs.List.{AllByRecursion};
ghost use Rattle.lvs_types.specs.declared.addr.Addr.{Addr};
ghost use Rattle.lvs_types.specs.declared.item.Item.{Item};
ghost use Rattle.lvs_types.specs.declared.command.Command.{Command};
ghost use Rattle.lvs_types.specs.declared.command.Line.TheVariants.{Edit};
ghost use Rattle.lvs_model.specs.State.{State, initial};
ghost use Rattle.lvs_model.specs.Step.{step, run};
ghost use Rattle.lvs_model.specs.AdminLines.{line_of_words};
ghost use Rattle.lvs_model.specs.Listings.{save_text};
ghost use Rattle.lvs_model.specs.Restoring.{restored};
ghost use Rattle.lvs_model.specs.Snapshots.{snapshot_of};
ghost use Rattle.lvs_model.specs.WellFormed.{IsWellFormed};
ghost use Rattle.lvs_listing.specs.Savable.{IsSavable, HasTables, after};
ghost use Rattle.lvs_laws.specs.Saying.{IsSayableCommand, IsSayableItem, HasSayableTables};

/// Where words can say each service and each server, live or in the trash, they can after each step whose
/// command, if it is one, is one that words can say; and so after each list of such items from the start.
pub fn commands_leave_sayable_tables()
    ensures step { (s : State) (next : Item) → HasSayableTables s → IsSayableItem next → HasSayableTables (step s next).1 }
    ensures run { (s : State) (items : List Item) → HasSayableTables s → AllByRecursion IsSayableItem items → HasSayableTables (run s items).1 }
    ensures begins { (local : Addr) (buckets : ℕ) → HasSayableTables (initial local buckets) }
{}

/// A well formed director whose services and servers words can say shows tables that can be saved, and so does
/// every director that began without tables and whose commands words can say.
pub fn commands_leave_savable_tables()
    ensures shown { (s : State) → IsWellFormed s → HasSayableTables s → IsSavable (snapshot_of s) }
    ensures ever { (local : Addr) (buckets : ℕ) (items : List Item) → AllByRecursion IsSayableItem items → IsSavable (snapshot_of (run (initial local buckets) items).1) }
{}

/// What `save` writes of a director whose commands words can say is read back, and its commands make of a
/// director without services and servers one with the same tables.
pub fn tables_that_commands_leave_come_back()
    ensures { (local : Addr) (buckets : ℕ) (items : List Item) → AllByRecursion IsSayableItem items → let tables = snapshot_of (run (initial local buckets) items).1 in (commands : List Command) × (restored (save_text tables) ≡ Ok commands) × ((s : State) → s.services ≡ [] → s.dests ≡ [] → HasTables tables (after s commands)) }
{}

/// The command of a line of words is one that words can say, whatever the words are.
pub fn words_give_sayable_commands()
    ensures { (words : List (List ℕ)) (given : Command) → line_of_words words ≡ Ok (Edit given) → IsSayableCommand given }
{}
