//! Worked examples: packets that leave everything as it was, ids included.
ghost use Rattle.std.specs.Prelude.{◌≡◌, [], ◌∷◌, ◌++◌, Some, None, map};
ghost use Rattle.lvs_types.specs.declared.entry.Entry.{Entry};
ghost use Rattle.lvs_types.specs.declared.item.Item.TheVariants as item;
ghost use Rattle.lvs_types.specs.declared.reply.Reply.TheVariants as reply;
ghost use Rattle.lvs_types.specs.declared.reply.DropCause.TheVariants as drops;
ghost use Rattle.lvs_model.specs.ExampleItems.{left_by, syn, web_packet};
ghost use Rattle.lvs_model.specs.Step.{step};
ghost use Rattle.lvs_examples.specs.Packets.{long_syn, first_fragment, later_fragment, icmp_packet};
ghost use Rattle.lvs_examples.specs.Items.{arriving, leaving};
ghost use Rattle.lvs_examples.specs.Tables.{one_connection, tunnelling, waiting_tunnel};

/// A packet whose tunnel packet would have 65,536 bytes: neither turn nor template nor id moves at a persistent
/// service, and a connection in TIME_WAIT whose place it would take stays, also under its id.
pub fn too_long()
    ensures new { step (left_by (tunnelling (Some 300))) (item.Incoming 0 long_syn) ≡ (reply.Drop drops.TooLong, left_by (tunnelling (Some 300))) }
    ensures waiting { step (left_by waiting_tunnel) (item.Incoming 0 long_syn) ≡ (reply.Drop drops.TooLong, left_by waiting_tunnel) }
    ensures its_id { map (λ (e : Entry). e.id) (left_by (waiting_tunnel ++ item.Incoming 0 long_syn ∷ [])).entries ≡ 1 ∷ [] }
    ensures next_id { map (λ (e : Entry). e.id) (left_by (waiting_tunnel ++ item.Incoming 0 long_syn ∷ syn 40000 ∷ [])).entries ≡ 2 ∷ [] }
{}

/// A fragment passes in either direction, also where its connection is there; so does another protocol.
pub fn passed_on()
    ensures first { step (left_by one_connection) (arriving first_fragment) ≡ (reply.Pass, left_by one_connection) }
    ensures later { step (left_by one_connection) (arriving later_fragment) ≡ (reply.Pass, left_by one_connection) }
    ensures outward { step (left_by one_connection) (leaving first_fragment) ≡ (reply.Pass, left_by one_connection) }
    ensures icmp { step (left_by one_connection) (item.Incoming 0 icmp_packet) ≡ (reply.Pass, left_by one_connection) }
{}
