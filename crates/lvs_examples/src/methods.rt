//! Worked examples: what each forwarding method makes of a packet, and the answers of masqueraded connections.
ghost use Rattle.std.specs.Prelude.{◌≡◌, [], ◌∷◌, ◌++◌, None};
ghost use Rattle.lvs_types.specs.declared.item.Item.TheVariants as item;
ghost use Rattle.lvs_types.specs.declared.reply.Reply.TheVariants as reply;
ghost use Rattle.lvs_types.specs.declared.service.Method.TheVariants.{Masq, Tunnel, Direct};
ghost use Rattle.lvs_model.specs.ExampleItems.{web, names, server_addr, add_example_service, left_by};
ghost use Rattle.lvs_examples.specs.Packets.{bytes_of, syn_segment, ack_segment, answer_segment, syn_at_server, ack_at_server, answer_from_service, syn_to_other, outer_header, udp_at_server};
ghost use Rattle.lvs_examples.specs.Items.{add_server, server_by, arriving, leaving, replies_after};
ghost use Rattle.lvs_examples.specs.Tables.{masquerading, handshake, one_server_twice, tunnelling, datagram};
ghost use Rattle.lvs_examples.specs.Connections.{after_syn, after_answer, after_ack};

/// By masquerade the client's packets go to 192.168.0.1:8080, and the server's answer goes out as the service's.
/// The answer moves the deadline; only the client's packets are counted.
pub fn a_masqueraded_handshake()
    ensures replies { replies_after masquerading handshake ≡ reply.Forward Masq (server_addr 1) (bytes_of syn_at_server) ∷ reply.Ticked ∷ reply.Outward (bytes_of answer_from_service) ∷ reply.Ticked ∷ reply.Forward Masq (server_addr 1) (bytes_of ack_at_server) ∷ [] }
    ensures after_syn { (left_by (masquerading ++ arriving syn_segment ∷ [])).entries ≡ after_syn ∷ [] }
    ensures after_answer { (left_by (masquerading ++ arriving syn_segment ∷ item.Tick 5 ∷ leaving answer_segment ∷ [])).entries ≡ after_answer ∷ [] }
    ensures after_ack { (left_by (masquerading ++ handshake)).entries ≡ after_ack ∷ [] }
{}

/// A datagram by masquerade.
pub fn a_masqueraded_datagram()
    ensures { replies_after (add_example_service names None ∷ add_server names (server_by Masq 1 53) ∷ []) (datagram ∷ []) ≡ reply.Forward Masq (server_addr 1) udp_at_server ∷ [] }
{}

/// An answer passes where no connection is there, and where it isn't a masqueraded one. Of two connections
/// between the same two sides the older one takes it.
pub fn whose_answer()
    ensures nobodys { replies_after masquerading (leaving answer_segment ∷ []) ≡ reply.Pass ∷ [] }
    ensures direct { replies_after (add_example_service web None ∷ add_server web (server_by Direct 1 8080) ∷ arriving syn_segment ∷ []) (leaving answer_segment ∷ []) ≡ reply.Pass ∷ [] }
    ensures oldest { replies_after (one_server_twice ++ arriving syn_segment ∷ arriving syn_to_other ∷ []) (leaving answer_segment ∷ []) ≡ reply.Outward (bytes_of answer_from_service) ∷ [] }
{}

/// By tunnel each packet goes as it came, behind a header from 10.0.0.254 to the server.
pub fn a_tunnelled_connection()
    ensures { replies_after (tunnelling None) (arriving syn_segment ∷ arriving ack_segment ∷ []) ≡ reply.Forward Tunnel (server_addr 7) (outer_header ++ bytes_of syn_segment) ∷ reply.Forward Tunnel (server_addr 7) (outer_header ++ bytes_of ack_segment) ∷ [] }
{}
