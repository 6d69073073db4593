//! Worked examples: unbound templates and entries, and what binds them.
ghost use Rattle.std.specs.Prelude.{◌≡◌, [], ◌∷◌, ◌++◌, Some, None, true, false, map};
ghost use Rattle.lvs_types.specs.declared.dest.Dest.{Dest};
ghost use Rattle.lvs_types.specs.declared.entry.Entry.{Entry};
ghost use Rattle.lvs_types.specs.declared.item.Item.TheVariants as item;
ghost use Rattle.lvs_types.specs.declared.reply.Reply.TheVariants as reply;
ghost use Rattle.lvs_types.specs.declared.reply.DropCause.TheVariants as drops;
ghost use Rattle.lvs_types.specs.declared.service.Method.TheVariants.{Tunnel};
ghost use Rattle.lvs_model.specs.ExampleItems.{server_addr, direct_to, left_by};
ghost use Rattle.lvs_examples.specs.Packets.{bytes_of, syn_segment, ack_segment, outer_header};
ghost use Rattle.lvs_examples.specs.Items.{arriving, replies_after};
ghost use Rattle.lvs_examples.specs.Tables.{direct_and_tunnel, quiescent_tunnel, template_learnt_first, connection_learnt_first, waiting_learnt_first};
ghost use Rattle.lvs_examples.specs.Connections.{learnt_entry, unbound_template, tunnelled_template};

/// A template that was learnt before its service is bound when it is first tried: it takes the server at its
/// address, which the turn would not have given, with its method, and is renewed.
pub fn a_template_is_bound_while_it_is_tried()
    ensures unbound { (left_by (template_learnt_first (direct_and_tunnel (Some 300)))).templates ≡ unbound_template ∷ [] }
    ensures reply { replies_after (template_learnt_first (direct_and_tunnel (Some 300))) (item.Tick 10 ∷ arriving syn_segment ∷ []) ≡ reply.Ticked ∷ reply.Forward Tunnel (server_addr 7) (outer_header ++ bytes_of syn_segment) ∷ [] }
    ensures bound { (left_by (template_learnt_first (direct_and_tunnel (Some 300)) ++ item.Tick 10 ∷ arriving syn_segment ∷ [])).templates ≡ record (tunnelled_template 2) { deadline = 310 } ∷ [] }
{}

/// The binding stays where the server can't be used and no other one is picked; the deadline stays too.
pub fn a_binding_stays_after_a_drop()
    ensures reply { replies_after (template_learnt_first quiescent_tunnel) (item.Tick 10 ∷ arriving syn_segment ∷ []) ≡ reply.Ticked ∷ reply.Drop drops.NoDest ∷ [] }
    ensures bound { (left_by (template_learnt_first quiescent_tunnel ++ item.Tick 10 ∷ arriving syn_segment ∷ [])).templates ≡ tunnelled_template 1 ∷ [] }
{}

/// A packet of a learnt connection goes by the recorded method while it is unbound, and by the server's once
/// it is bound.
pub fn an_entry_is_bound_by_its_packet()
    ensures unbound { replies_after (connection_learnt_first []) (arriving ack_segment ∷ []) ≡ direct_to 7 (bytes_of ack_segment) ∷ [] }
    ensures bound { replies_after (connection_learnt_first (direct_and_tunnel None)) (arriving ack_segment ∷ []) ≡ reply.Forward Tunnel (server_addr 7) (outer_header ++ bytes_of ack_segment) ∷ [] }
    ensures entry { (left_by (connection_learnt_first (direct_and_tunnel None) ++ item.Tick 20 ∷ arriving ack_segment ∷ [])).entries ≡ record (learnt_entry 7) { server = Some (record { 0 = 2 }); method = Tunnel; packets = 1 } ∷ [] }
{}

/// A SYN that takes up the place of an unbound connection binds it first: the server is then overloaded, and
/// stays so once the connection has ended, since one connection isn't fewer than the lower threshold of 1.
pub fn an_entry_is_bound_before_it_ends()
    ensures before { map (λ (d : Dest). d.overloaded) (left_by waiting_learnt_first).dests ≡ false ∷ [] }
    ensures reply { replies_after waiting_learnt_first (arriving syn_segment ∷ []) ≡ reply.Drop drops.NoDest ∷ [] }
    ensures entries { map (λ (e : Entry). e.id) (left_by (waiting_learnt_first ++ arriving syn_segment ∷ [])).entries ≡ 2 ∷ [] }
    ensures overloaded { map (λ (d : Dest). d.overloaded) (left_by (waiting_learnt_first ++ arriving syn_segment ∷ [])).dests ≡ true ∷ [] }
{}
