//! Worked examples of the well formed state and of counted numbers.
ghost use Rattle.std.specs.Prelude.{◌≡◌, [], ◌∷◌};
ghost use Rattle.lvs_model.specs.Counted.{IsCounted, IsNumberedServer};
ghost use Rattle.lvs_model.specs.Counts.{inactive};
ghost use Rattle.lvs_model.specs.WellFormed.{IsWellFormed, entry_ids, dest_ids};
ghost use Rattle.lvs_well_formed.specs.Broken.{after_three_syns};

/// After three SYNs to a service of two servers the state is well formed, with entries 1, 2 and 3 at servers 1 and 2.
pub fn three_syns()
    ensures well_formed { IsWellFormed after_three_syns }
    ensures entries { entry_ids after_three_syns.entries ≡ 1 ∷ 2 ∷ 3 ∷ [] }
    ensures dests { dest_ids after_three_syns.dests ≡ 1 ∷ 2 ∷ [] }
{}

/// These six steps are counted: no id is above 4, and of the three packets two went to server 1, whose
/// connections aren't active.
pub fn three_syns_are_counted()
    ensures counted { IsCounted 6 after_three_syns }
    ensures server { IsNumberedServer 6 after_three_syns (record { 0 = 1 }) }
    ensures inactive { inactive (record { 0 = 1 }) after_three_syns.entries ≡ 2 }
    ensures uncounted { IsCounted 2 after_three_syns → ⊥ }
{}
