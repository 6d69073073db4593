//! The law Release: a server is let go only when nothing names it. A function without a body carries each part.
ghost use Rattle.std.specs.Prelude.{◌≡◌, ◌≢◌, ◌<◌, true, false, List};
ghost use Rattle.lvs_types.specs.declared.addr.DestId.{DestId};
ghost use Rattle.lvs_types.specs.declared.command.Command.{Command};
ghost use Rattle.lvs_types.specs.declared.dest.Dest.{Dest};
ghost use Rattle.lvs_types.specs.declared.item.Item.{Item};
ghost use Rattle.lvs_types.specs.declared.item.Item.TheVariants as item;
ghost use Rattle.lvs_model.specs.Counts.{refs};
ghost use Rattle.lvs_model.specs.Lookups.{dest_at};
ghost use Rattle.lvs_model.specs.State.{State};
ghost use Rattle.lvs_model.specs.Step.{step, run};
ghost use Rattle.lvs_model.specs.WellFormed.{IsWellFormed};
ghost use Rattle.lvs_laws.specs.Releasing.{IsServerOf, IsGone, IsUnnamed, TakesAway, IsRemovedBy, IsReapedIn, StaysOrIsReleased, IsReleasedAmong};

/// After each step a server is still there, or the item released it: an edit that takes it away while it is
/// live, or a reap that finds it in the trash, each where no entry and no template names it.
pub fn a_server_stays_or_is_released()
    ensures { (s : State) (next : Item) (d : Dest) → IsWellFormed s → IsServerOf s d → StaysOrIsReleased s next d (dest_at d.id (step s next).1.dests) }
{}

/// No entry and no template names a server that isn't there, after a release as before it.
pub fn no_server_that_is_gone_is_named()
    ensures always { (s : State) (id : DestId) → IsWellFormed s → IsGone s id → IsUnnamed s id }
    ensures released { (s : State) (next : Item) (id : DestId) → IsWellFormed s → IsGone (step s next).1 id → IsUnnamed (step s next).1 id }
{}

/// A live server that an edit takes away leaves at once where no entry and no template names it, and else it
/// goes to the trash as it is.
pub fn a_removal_takes_effect_at_once()
    ensures released { (s : State) (command : Command) (d : Dest) → IsWellFormed s → IsServerOf s d → IsRemovedBy s d command → IsGone (step s (item.Edit command)).1 d.id }
    ensures trashed { (s : State) (command : Command) (d : Dest) → IsWellFormed s → IsServerOf s d → d.live ≡ true → TakesAway d command → refs d.id s.entries s.templates ≢ 0 → IsServerOf (step s (item.Edit command)).1 (record d { live = false }) }
{}

/// At a reap each server leaves that is in the trash and that nothing names once the due templates have left.
pub fn a_reap_releases_what_nothing_names()
    ensures { (s : State) (d : Dest) → IsWellFormed s → IsServerOf s d → IsReapedIn s d → IsGone (step s item.Reap).1 d.id }
{}

/// Where a server isn't there after a list of items, one of them released it: the server was there when that
/// item came, and isn't after it.
pub fn a_server_that_is_gone_was_released()
    ensures { (s : State) (items : List Item) (d : Dest) → IsWellFormed s → IsServerOf s d → IsGone (run s items).1 d.id → IsReleasedAmong s items d }
{}

/// An id that was drawn and is gone stays gone, and nothing names it ever after; so it is with the id of each
/// server that was there and isn't after some items.
pub fn a_released_id_is_never_used_again()
    ensures gone { (s : State) (items : List Item) (id : DestId) → IsWellFormed s → id.0 < s.next_dest → IsGone s id → IsGone (run s items).1 id }
    ensures unnamed { (s : State) (items : List Item) (id : DestId) → IsWellFormed s → id.0 < s.next_dest → IsGone s id → IsUnnamed (run s items).1 id }
    ensures ever_after { (s : State) (items later : List Item) (d : Dest) → IsWellFormed s → IsServerOf s d → IsGone (run s items).1 d.id → IsGone (run (run s items).1 later).1 d.id }
{}
