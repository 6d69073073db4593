//! Worked examples of the law Release: each of its premises is met, and each way of leaving happens.
ghost use Rattle.std.specs.Prelude.{◌≡◌, ◌<◌, [], ◌∷◌, ◌++◌};
ghost use Rattle.lvs_types.specs.declared.command.Command.TheVariants as command;
ghost use Rattle.lvs_types.specs.declared.item.Item.TheVariants as item;
ghost use Rattle.lvs_model.specs.Counts.{refs};
ghost use Rattle.lvs_model.specs.ExampleItems.{web, server_addr, add_web_server, remove_web_server, syn, left_by};
ghost use Rattle.lvs_model.specs.Step.{step, run};
ghost use Rattle.lvs_model.specs.WellFormed.{IsWellFormed, dest_ids};
ghost use Rattle.lvs_laws.specs.Releasing.{IsServerOf, IsGone, TakesAway, IsReleasedBy};
ghost use Rattle.lvs_laws.specs.ReleaseExamples.{one_server, connected, connected_then_removed, removed_then_swept, template_left, swept_then_reaped, first_id, first_server, trashed_server};

/// A live server that nothing names: each of the three removals releases it at once.
pub fn released_at_once()
    ensures well_formed { IsWellFormed (left_by one_server) }
    ensures there { IsServerOf (left_by one_server) first_server }
    ensures by_itself { IsReleasedBy (left_by one_server) first_server (remove_web_server 1) }
    ensures by_its_service { IsReleasedBy (left_by one_server) first_server (item.Edit (command.RemoveService web)) }
    ensures by_clear { IsReleasedBy (left_by one_server) first_server (item.Edit command.Clear) }
    ensures gone { IsGone (step (left_by one_server) (remove_web_server 1)).1 first_id }
    ensures gone_with_its_service { IsGone (step (left_by one_server) (item.Edit (command.RemoveService web))).1 first_id }
    ensures gone_with_all { IsGone (step (left_by one_server) (item.Edit command.Clear)).1 first_id }
{}

/// A removed server that a connection names goes to the trash, and a reap leaves it there.
pub fn stays_in_the_trash()
    ensures well_formed { IsWellFormed (left_by connected) }
    ensures live { IsServerOf (left_by connected) first_server }
    ensures taken { TakesAway first_server (command.RemoveServer web (server_addr 1) 80) }
    ensures named { refs first_id (left_by connected).entries (left_by connected).templates ≡ 1 }
    ensures trashed { IsServerOf (left_by connected_then_removed) trashed_server }
    ensures stays { IsServerOf (step (left_by connected_then_removed) item.Reap).1 trashed_server }
{}

/// Once the connection was swept, the next reap releases the server.
pub fn released_at_a_reap()
    ensures well_formed { IsWellFormed (left_by removed_then_swept) }
    ensures there { IsServerOf (left_by removed_then_swept) trashed_server }
    ensures released { IsReleasedBy (left_by removed_then_swept) trashed_server item.Reap }
    ensures gone { IsGone (step (left_by removed_then_swept) item.Reap).1 first_id }
{}

/// A server that only a due template names leaves at the reap that ends the template.
pub fn released_with_its_template()
    ensures well_formed { IsWellFormed (left_by template_left) }
    ensures there { IsServerOf (left_by template_left) trashed_server }
    ensures named { refs first_id (left_by template_left).entries (left_by template_left).templates ≡ 1 }
    ensures released { IsReleasedBy (left_by template_left) trashed_server item.Reap }
    ensures gone { IsGone (step (left_by template_left) item.Reap).1 first_id }
{}

/// Its id, which was drawn, is gone at the end of the list; a new server at the same address gets another one.
pub fn never_used_again()
    ensures well_formed { IsWellFormed (left_by swept_then_reaped) }
    ensures gone_after_items { IsGone (run (left_by one_server) (syn 40000 ∷ remove_web_server 1 ∷ item.Tick 1000 ∷ item.Sweep 0 ∷ item.Reap ∷ [])).1 first_id }
    ensures drawn { first_id.0 < (left_by swept_then_reaped).next_dest }
    ensures gone { IsGone (left_by swept_then_reaped) first_id }
    ensures again { dest_ids (left_by (swept_then_reaped ++ add_web_server 1 ∷ [])).dests ≡ 2 ∷ [] }
{}
