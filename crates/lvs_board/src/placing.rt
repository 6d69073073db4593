//! Servers come to the desk, and get another specification.
ghost use Rattle.std.specs.Prelude.{◌≡◌, ◌≤◌, ◌^◌, true, false, nat_eq, OnOk, OnErr};
ghost use Rattle.std.specs.List.{find, list_any, IsDistinct};
ghost use Rattle.lvs_types.specs.Thresholds.{has_bad_thresholds};
ghost use Rattle.lvs_model.specs.Edits.{is_revivable, place_server, respecified};
ghost use Rattle.lvs_model.specs.Counts.{refs};
ghost use Rattle.lvs_model.specs.Lists.{update_first};
ghost use Rattle.lvs_model.specs.Lookups.{is_server_at};
ghost use Rattle.lvs_model.specs.WellFormed.{dest_ids, place_eq, places};
ghost use Rattle.lvs_dests.specs.Rows.{dests_of, edited, is_known, placed};
ghost use Rattle.lvs_board.specs.Desks.{state_of, IsSound};

use crate::desk::Desk;
use lvs_dests::Dests;
use lvs_rules::Whole;
use lvs_types::{DestSpec, NoMemory, ServiceKey};

/// A server comes back from the trash, or a new one comes; it stands last.
fn place(dests: &mut Dests, key: &ServiceKey, spec: &DestSpec) -> Result<(), NoMemory>
    requires next { dests.old.next ≤ 2 ^ 62 }
    requires fresh { is_known key.now spec.now.addr spec.now.port dests.old.rows ≡ false }
    requires thresholds { has_bad_thresholds spec.now ≡ false }
    ensures ok { OnOk result (dests.new ≡ (placed key.now spec.now dests.old).1) }
    ensures err { OnErr result (dests.new ≡ dests.old) }
    ensures apart { IsDistinct nat_eq (dest_ids (dests_of dests.new.rows)) }
{
    let placed = dests.add(key, spec);
    // Each look-up says that the ids are apart.
    let _ = dests.candidates(key);
    match placed {
        Ok(_) => Ok(()),
        Err(_) => Err(NoMemory),
    }
}

/// The live server at the address and port of the specification gets it.
fn respecify(dests: &mut Dests, key: &ServiceKey, spec: &DestSpec)
    requires there { is_known key.now spec.now.addr spec.now.port dests.old.rows ≡ true }
    requires thresholds { has_bad_thresholds spec.now ≡ false }
    ensures edited { dests.new ≡ edited key.now spec.now dests.old }
    ensures places { IsDistinct place_eq (places (dests_of dests.old.rows)) }
{
    // Each look-up says that no two stand at one place.
    let _ = dests.candidates(key);
    let _ = dests.edit(key, spec);
}

impl Desk {
    /// A server comes back from the trash, or a new one comes; it stands last. Nothing names the id
    /// that a new one gets.
    pub(crate) fn place_server<W: Whole>(
        &mut self,
        key: ServiceKey,
        spec: &DestSpec,
    ) -> Result<(), NoMemory>
        requires sound { IsSound W.whole self.old }
        requires next { (state_of W.whole self.old).next_dest ≤ 2 ^ 62 }
        requires unnamed { refs (record { 0 = (state_of W.whole self.old).next_dest }) (state_of W.whole self.old).entries (state_of W.whole self.old).templates ≡ 0 }
        requires fresh { list_any (is_server_at key spec.now.addr spec.now.port) (state_of W.whole self.old).dests ≡ false }
        requires thresholds { has_bad_thresholds spec.now ≡ false }
        ensures ok { OnOk result (state_of W.whole self.new ≡ place_server (state_of W.whole self.old) key spec.now (find (is_revivable key spec.now) (state_of W.whole self.old).dests)) }
        ensures err { OnErr result (self.new ≡ self.old) }
        ensures sound { IsSound W.whole self.new }
        ensures rest { self.new ≡ record self.old { dests = self.new.dests } }
    {
        place(&mut self.dests, &key, spec)
    }

    /// The live server at the address and port of the specification gets it.
    pub(crate) fn respecify_server<W: Whole>(&mut self, key: ServiceKey, spec: &DestSpec)
        requires sound { IsSound W.whole self.old }
        requires there { list_any (is_server_at key spec.now.addr spec.now.port) (state_of W.whole self.old).dests ≡ true }
        requires thresholds { has_bad_thresholds spec.now ≡ false }
        ensures state { state_of W.whole self.new ≡ record (state_of W.whole self.old) { dests = update_first (is_server_at key spec.now.addr spec.now.port) (respecified (state_of W.whole self.old).entries spec.now) (state_of W.whole self.old).dests } }
        ensures sound { IsSound W.whole self.new }
        ensures rest { self.new ≡ record self.old { dests = self.new.dests } }
    {
        respecify(&mut self.dests, &key, spec);
    }
}
