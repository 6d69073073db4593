//! Worked examples of the laws Keep and Takeover: states that meet what they ask, and each way in which a connection leaves.
ghost use Rattle.std.specs.Prelude.{◌≡◌, ◌++◌, true, false, List, [], ◌∷◌, Option, Some, None};
ghost use Rattle.std.specs.Option.{option_map};
ghost use Rattle.lvs_types.specs.declared.addr.Addr.{Addr};
ghost use Rattle.lvs_types.specs.declared.addr.DestId.{DestId};
ghost use Rattle.lvs_types.specs.declared.entry.Entry.{Entry};
ghost use Rattle.lvs_types.specs.declared.item.Item.TheVariants as item;
ghost use Rattle.lvs_types.specs.declared.reply.DropCause.TheVariants as drops;
ghost use Rattle.lvs_types.specs.declared.reply.Reply.TheVariants as reply;
ghost use Rattle.lvs_types.specs.declared.service.Proto.TheVariants.{Tcp};
ghost use Rattle.lvs_types.specs.declared.sync.SyncItem.TheVariants.{V4};
ghost use Rattle.lvs_model.specs.ExampleItems.{ack, add_example_service, add_web_server, direct_to, remove_web_server, server_addr, syn, web_packet, web, add_example_service, web_packet};
ghost use Rattle.lvs_model.specs.Incoming.{incoming_packet};
ghost use Rattle.lvs_model.specs.Lookups.{entry_at};
ghost use Rattle.lvs_model.specs.Step.{step, run};
ghost use Rattle.lvs_model.specs.WellFormed.{IsWellFormed};
ghost use Rattle.lvs_laws.specs.Keeping.{entry_of_id, is_reused_by};
ghost use Rattle.lvs_laws.specs.KeepExamples.{one_connection, its_entry, end_nodest, take_weight, start_backup, recorded, recorded_waiting, backup, bare_backup, client_key, recorded_entry, ack_head, tunnel_waiting, recorded_as_waiting, syn_of};
ghost use Rattle.lvs_laws.specs.TakingOver.{IsPlainPacketOf, IsTakenOver, after_record};

/// A bound connection in a well formed state keeps its server through packets, the removal of that server, and
/// a sweep before its deadline.
pub fn a_connection_is_kept()
    ensures well_formed { IsWellFormed one_connection }
    ensures there { entry_of_id its_entry.id one_connection.entries ≡ Some its_entry }
    ensures server { option_map (λ (e : Entry). e.server) (entry_of_id 1 (run one_connection (ack 40000 ∷ remove_web_server 1 ∷ item.Tick 59 ∷ item.Sweep 0 ∷ [])).1.entries) ≡ Some (Some (record { 0 = 1 })) }
    ensures address { option_map (λ (e : Entry). e.daddr) (entry_of_id 1 (run one_connection (ack 40000 ∷ remove_web_server 1 ∷ item.Tick 59 ∷ item.Sweep 0 ∷ [])).1.entries) ≡ Some (server_addr 1) }
{}

/// It leaves by a sweep at its deadline; by a SYN of its key, where its server has no weight and such
/// connections are reused; by a packet of its key, where its server was removed and such connections are
/// ended; and by a record of its key with another address.
pub fn connections_leave()
    ensures swept { entry_of_id 1 (run one_connection (item.Tick 60 ∷ item.Sweep 0 ∷ [])).1.entries ≡ None }
    ensures reused { entry_of_id 1 (run one_connection (end_nodest ∷ take_weight ∷ syn 40000 ∷ [])).1.entries ≡ None }
    ensures gone { entry_of_id 1 (run one_connection (end_nodest ∷ remove_web_server 1 ∷ ack 40000 ∷ [])).1.entries ≡ None }
    ensures replaced { entry_of_id 1 (run one_connection (start_backup ∷ item.Learn 7 (V4 recorded) ∷ [])).1.entries ≡ None }
{}

/// A backup takes over a recorded connection: its entry is there, an ACK of it is a packet that the law speaks
/// of, and goes to the recorded address. So it does where the backup has no service for it; the connection is
/// unbound then, and a later packet binds it once a server stands at its address.
pub fn a_connection_is_taken_over()
    ensures well_formed { IsWellFormed backup }
    ensures accepted { IsTakenOver backup 7 recorded }
    ensures there { entry_at client_key (after_record backup 7 recorded).entries ≡ Some recorded_entry }
    ensures plain { IsPlainPacketOf (after_record backup 7 recorded) recorded_entry 0 (web_packet 40000 16) ack_head Tcp }
    ensures sent { (step (after_record backup 7 recorded) (ack 40000)).0 ≡ direct_to 2 (web_packet 40000 16) }
    ensures sent_unbound { (step (after_record bare_backup 7 recorded) (ack 40000)).0 ≡ direct_to 2 (web_packet 40000 16) }
    ensures unbound { option_map (λ (e : Entry). e.server) (entry_of_id 1 (run (after_record bare_backup 7 recorded) (ack 40000 ∷ [])).1.entries) ≡ Some None }
    ensures bound_later { option_map (λ (e : Entry). e.server) (entry_of_id 1 (run (after_record bare_backup 7 recorded) (ack 40000 ∷ add_example_service web None ∷ add_web_server 2 ∷ ack 40000 ∷ [])).1.entries) ≡ Some (Some (record { 0 = 1 })) }
{}

/// Where the recorded server was removed, the packet is dropped. A SYN takes up the place of a connection in
/// TIME_WAIT: the scheduler picks anew, and it goes to another server.
pub fn packets_that_are_not_sent_on()
    ensures gone { (step (run (after_record backup 7 recorded) (remove_web_server 2 ∷ [])).1 (ack 40000)).0 ≡ reply.Drop drops.Gone }
    ensures reused { (step (after_record backup 7 recorded_waiting) (syn 40000)).0 ≡ direct_to 1 (web_packet 40000 2) }
{}

/// A SYN of the longest tunnel packet takes up the place of a connection in TIME_WAIT. One that is a byte
/// longer is dropped, and the connection and all else stay.
pub fn a_syn_may_be_too_long()
    ensures reuses { is_reused_by tunnel_waiting recorded_as_waiting (syn_of 65516) ≡ true }
    ensures there { entry_at client_key tunnel_waiting.entries ≡ Some recorded_as_waiting }
    ensures too_long { incoming_packet tunnel_waiting (syn_of 65516) ≡ (reply.Drop drops.TooLong, tunnel_waiting) }
    ensures taken_up { entry_of_id 1 (incoming_packet tunnel_waiting (syn_of 65515)).1.entries ≡ None }
{}
