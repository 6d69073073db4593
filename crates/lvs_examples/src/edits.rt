//! Worked examples: edits of services, servers and timeouts, and what they leave as it was.
ghost use Rattle.std.specs.Prelude.{◌≡◌, [], ◌∷◌, ◌++◌, None, map};
ghost use Rattle.lvs_types.specs.declared.entry.Entry.{Entry};
ghost use Rattle.lvs_types.specs.declared.item.Item.TheVariants as item;
ghost use Rattle.lvs_types.specs.declared.reply.Reply.TheVariants as reply;
ghost use Rattle.lvs_types.specs.declared.reply.EditRefused.TheVariants as refused;
ghost use Rattle.lvs_types.specs.declared.service.Service.{Service};
ghost use Rattle.lvs_model.specs.Counts.{total};
ghost use Rattle.lvs_model.specs.ExampleItems.{web, names, service_with, syn, ack, web_packet, direct_to, left_by};
ghost use Rattle.lvs_model.specs.ExampleServers.{cursor_after};
ghost use Rattle.lvs_examples.specs.Items.{edit_service, replies_after};
ghost use Rattle.lvs_examples.specs.Tables.{one_connection, turned_by_weight, removed, revived, set_after_ack};
ghost use Rattle.lvs_examples.specs.Connections.{direct_entry, live_server, trashed_server, revived_server};

/// `-E` begins the turns anew and takes all that is given; the connections stay. It makes no service.
pub fn an_edited_service()
    ensures turn_before { map (λ (s : Service). s.cursor) (left_by one_connection).services ≡ cursor_after 1 0 ∷ [] }
    ensures replies { replies_after one_connection (edit_service (service_with web None) ∷ syn 40001 ∷ []) ≡ reply.Done ∷ direct_to 1 (web_packet 40001 2) ∷ [] }
    ensures service { (left_by (one_connection ++ edit_service turned_by_weight ∷ [])).services ≡ turned_by_weight ∷ [] }
    ensures entries { (left_by (one_connection ++ edit_service turned_by_weight ∷ [])).entries ≡ direct_entry 1 ∷ [] }
    ensures unknown { replies_after one_connection (edit_service (service_with names None) ∷ []) ≡ reply.Refused refused.NoService ∷ [] }
{}

/// `--set` concerns the deadlines that are set after it, and a number of 0 leaves its timeout: with 1800 0 0 at
/// moment 20, the ACK of moment 10 is due at 910, and that of moment 30 at 1830.
pub fn set_timeouts()
    ensures before { map (λ (e : Entry). e.deadline) (left_by set_after_ack).entries ≡ 910 ∷ [] }
    ensures after { map (λ (e : Entry). e.deadline) (left_by (set_after_ack ++ item.Tick 30 ∷ ack 40000 ∷ [])).entries ≡ 1830 ∷ [] }
    ensures established { (left_by set_after_ack).settings.established ≡ 1800 }
    ensures fin_wait { (left_by set_after_ack).settings.fin_wait ≡ 120 }
    ensures udp { (left_by set_after_ack).settings.udp ≡ 300 }
{}

/// A server that comes back from the trash has its id and its connection, what `-a` gives it, and the last
/// place; no id is drawn.
pub fn a_revived_server()
    ensures trashed { (left_by removed).dests ≡ trashed_server ∷ live_server 2 ∷ [] }
    ensures revived { (left_by revived).dests ≡ live_server 2 ∷ revived_server ∷ [] }
    ensures counted { total (record { 0 = 1 }) (left_by revived).entries ≡ 1 }
    ensures next_id { (left_by revived).next_dest ≡ 3 }
    ensures packet { replies_after revived (ack 40000 ∷ []) ≡ direct_to 1 (web_packet 40000 16) ∷ [] }
{}
