//! Worked examples: runs of the director.
ghost use Rattle.std.specs.Prelude.{◌≡◌, ◌+◌, [], ◌∷◌, true, false, Some, None, map, length};
ghost use Rattle.lvs_types.specs.declared.dest.Dest.{Dest};
ghost use Rattle.lvs_types.specs.declared.item.Item.TheVariants as item;
ghost use Rattle.lvs_types.specs.declared.command.Command.TheVariants as command;
ghost use Rattle.lvs_types.specs.declared.settings.Setting.TheVariants as setting;
ghost use Rattle.lvs_types.specs.declared.reply.Reply.TheVariants as reply;
ghost use Rattle.lvs_types.specs.declared.reply.DropCause.TheVariants as drops;
ghost use Rattle.lvs_types.specs.declared.reply.EditRefused.TheVariants as refused;
ghost use Rattle.lvs_model.specs.ExampleItems.{web, names, add_example_service, add_web_server, remove_web_server, syn, ack, reset, web_packet, udp_packet, direct_server, direct_to, replies_to, left_by};

/// Three SYNs to one rr service with two direct servers go to the first, the second and the first.
pub fn three_syns()
    ensures { replies_to (add_example_service web None ∷ add_web_server 1 ∷ add_web_server 2 ∷ syn 40000 ∷ syn 40001 ∷ syn 40002 ∷ []) ≡ reply.Done ∷ reply.Done ∷ reply.Done ∷ direct_to 1 (web_packet 40000 2) ∷ direct_to 2 (web_packet 40001 2) ∷ direct_to 1 (web_packet 40002 2) ∷ [] }
{}

/// The connections of a removed server wait for it, and go on when it comes back.
pub fn gone_and_revived()
    ensures { replies_to (add_example_service web None ∷ add_web_server 1 ∷ syn 40000 ∷ remove_web_server 1 ∷ ack 40000 ∷ add_web_server 1 ∷ ack 40000 ∷ []) ≡ reply.Done ∷ reply.Done ∷ direct_to 1 (web_packet 40000 2) ∷ reply.Done ∷ reply.Drop drops.Gone ∷ reply.Done ∷ direct_to 1 (web_packet 40000 16) ∷ [] }
{}

/// With expire_nodest_conn the first packet ends them.
pub fn gone_and_ended()
    ensures { replies_to (item.Set (setting.ExpireNodest 1) ∷ add_example_service web None ∷ add_web_server 1 ∷ syn 40000 ∷ remove_web_server 1 ∷ ack 40000 ∷ ack 40000 ∷ []) ≡ reply.Done ∷ reply.Done ∷ reply.Done ∷ direct_to 1 (web_packet 40000 2) ∷ reply.Done ∷ reply.Drop drops.Gone ∷ reply.Pass ∷ [] }
{}

/// A removed server is released once its last connection has ended, at exactly its deadline.
pub fn released()
    ensures { replies_to (add_example_service web None ∷ add_web_server 1 ∷ syn 40000 ∷ remove_web_server 1 ∷ item.Tick 59 ∷ item.Sweep 0 ∷ item.Reap ∷ item.Tick 60 ∷ item.Sweep 0 ∷ item.Reap ∷ []) ≡ reply.Done ∷ reply.Done ∷ direct_to 1 (web_packet 40000 2) ∷ reply.Done ∷ reply.Ticked ∷ reply.Swept 0 ∷ reply.Reaped 0 0 0 ∷ reply.Ticked ∷ reply.Swept 1 ∷ reply.Reaped 0 0 1 ∷ [] }
{}

/// Overload is set at the upper threshold of 4, stays at three connections, and is cleared at two.
pub fn overloaded_at_4()
    ensures replies { replies_to (add_example_service web None ∷ item.Edit (command.AddServer web (direct_server 1 80 1 4)) ∷ syn 1 ∷ item.Tick 10 ∷ syn 2 ∷ item.Tick 20 ∷ syn 3 ∷ syn 4 ∷ syn 5 ∷ item.Tick 60 ∷ item.Sweep 0 ∷ syn 6 ∷ item.Tick 70 ∷ item.Sweep 0 ∷ syn 7 ∷ []) ≡ reply.Done ∷ reply.Done ∷ direct_to 1 (web_packet 1 2) ∷ reply.Ticked ∷ direct_to 1 (web_packet 2 2) ∷ reply.Ticked ∷ direct_to 1 (web_packet 3 2) ∷ direct_to 1 (web_packet 4 2) ∷ reply.Drop drops.NoDest ∷ reply.Ticked ∷ reply.Swept 1 ∷ reply.Drop drops.NoDest ∷ reply.Ticked ∷ reply.Swept 1 ∷ direct_to 1 (web_packet 7 2) ∷ [] }
    ensures set { map (λ (d : Dest). d.overloaded) (left_by (add_example_service web None ∷ item.Edit (command.AddServer web (direct_server 1 80 1 2)) ∷ syn 1 ∷ syn 2 ∷ [])).dests ≡ true ∷ [] }
    ensures below { map (λ (d : Dest). d.overloaded) (left_by (add_example_service web None ∷ item.Edit (command.AddServer web (direct_server 1 80 1 2)) ∷ syn 1 ∷ [])).dests ≡ false ∷ [] }
{}

/// A UDP entry is due at exactly 300 seconds.
pub fn due_at_300()
    ensures { replies_to (add_example_service names None ∷ item.Edit (command.AddServer names (direct_server 1 53 1 0)) ∷ item.Incoming 0 udp_packet ∷ item.Tick 299 ∷ item.Sweep 0 ∷ item.Tick 300 ∷ item.Sweep 0 ∷ []) ≡ reply.Done ∷ reply.Done ∷ direct_to 1 udp_packet ∷ reply.Ticked ∷ reply.Swept 0 ∷ reply.Ticked ∷ reply.Swept 1 ∷ [] }
{}

/// A due template holds for 60 seconds more while an entry was made by it.
pub fn renewed_template()
    ensures { replies_to (add_example_service web (Some 300) ∷ add_web_server 1 ∷ syn 40000 ∷ item.Tick 30 ∷ ack 40000 ∷ item.Tick 300 ∷ item.Sweep 0 ∷ item.Reap ∷ item.Tick 305 ∷ reset 40000 ∷ item.Tick 360 ∷ item.Sweep 0 ∷ item.Reap ∷ []) ≡ reply.Done ∷ reply.Done ∷ direct_to 1 (web_packet 40000 2) ∷ reply.Ticked ∷ direct_to 1 (web_packet 40000 16) ∷ reply.Ticked ∷ reply.Swept 0 ∷ reply.Reaped 0 1 0 ∷ reply.Ticked ∷ direct_to 1 (web_packet 40000 4) ∷ reply.Ticked ∷ reply.Swept 1 ∷ reply.Reaped 1 0 0 ∷ [] }
{}

/// The clients of a template go to one server, whatever the turn.
pub fn persistent_client()
    ensures { replies_to (add_example_service web (Some 300) ∷ add_web_server 1 ∷ add_web_server 2 ∷ syn 1 ∷ syn 2 ∷ []) ≡ reply.Done ∷ reply.Done ∷ reply.Done ∷ direct_to 1 (web_packet 1 2) ∷ direct_to 1 (web_packet 2 2) ∷ [] }
{}

/// A SYN takes up the place of a connection in TIME_WAIT.
pub fn reused_entry()
    ensures reused { replies_to (add_example_service web None ∷ add_web_server 1 ∷ add_web_server 2 ∷ syn 40000 ∷ item.Incoming 0 (web_packet 40000 1) ∷ syn 40000 ∷ []) ≡ reply.Done ∷ reply.Done ∷ reply.Done ∷ direct_to 1 (web_packet 40000 2) ∷ direct_to 1 (web_packet 40000 1) ∷ direct_to 2 (web_packet 40000 2) ∷ [] }
    ensures kept { replies_to (item.Set (setting.ReuseMode 0) ∷ add_example_service web None ∷ add_web_server 1 ∷ add_web_server 2 ∷ syn 40000 ∷ item.Incoming 0 (web_packet 40000 1) ∷ syn 40000 ∷ []) ≡ reply.Done ∷ reply.Done ∷ reply.Done ∷ reply.Done ∷ direct_to 1 (web_packet 40000 2) ∷ direct_to 1 (web_packet 40000 1) ∷ direct_to 1 (web_packet 40000 2) ∷ [] }
{}

/// Refusals in the order of each command.
pub fn refused_edits()
    ensures { replies_to (add_web_server 1 ∷ add_example_service web None ∷ add_example_service web None ∷ item.Edit (command.AddServer web (record { addr = record { number = 1 }; port = 80; method = (direct_server 1 80 1 0).method; weight = 1; upper = 2; lower = 3 })) ∷ remove_web_server 1 ∷ item.Edit command.StopMaster ∷ []) ≡ reply.Refused refused.NoService ∷ reply.Done ∷ reply.Refused refused.Exists ∷ reply.Refused refused.Thresholds ∷ reply.Refused refused.NoDest ∷ reply.Refused refused.NotRunning ∷ [] }
{}
