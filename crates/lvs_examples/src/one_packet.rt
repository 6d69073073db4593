//! Worked examples: one-packet scheduling.
ghost use Rattle.std.specs.Prelude.{◌≡◌, [], ◌∷◌, ◌++◌, Some, None, map};
ghost use Rattle.lvs_types.specs.declared.entry.Entry.{Entry};
ghost use Rattle.lvs_types.specs.declared.item.Item.TheVariants as item;
ghost use Rattle.lvs_types.specs.declared.service.Proto.TheVariants.{Tcp};
ghost use Rattle.lvs_types.specs.declared.service.Service.{Service};
ghost use Rattle.lvs_model.specs.ExampleItems.{udp_packet, direct_to, left_by};
ghost use Rattle.lvs_model.specs.ExampleServers.{cursor_after};
ghost use Rattle.lvs_examples.specs.Packets.{syn_segment};
ghost use Rattle.lvs_examples.specs.Items.{marked, replies_after};
ghost use Rattle.lvs_examples.specs.Tables.{name_servers, datagram, one_packet_mark};
ghost use Rattle.lvs_examples.specs.Connections.{name_template};

/// Three packets of one client go to the first, the second and the first server. No entry is made and no id is
/// drawn; the turn stays.
pub fn each_packet_by_itself()
    ensures replies { replies_after (name_servers None) (datagram ∷ datagram ∷ datagram ∷ []) ≡ direct_to 1 udp_packet ∷ direct_to 2 udp_packet ∷ direct_to 1 udp_packet ∷ [] }
    ensures entries { (left_by (name_servers None ++ datagram ∷ datagram ∷ [])).entries ≡ [] }
    ensures next_id { (left_by (name_servers None ++ datagram ∷ datagram ∷ [])).next_entry ≡ 1 }
    ensures turn { map (λ (s : Service). s.cursor) (left_by (name_servers None ++ datagram ∷ datagram ∷ [])).services ≡ cursor_after 2 0 ∷ [] }
{}

/// A persistent service keeps the template, and so the client's packets together.
pub fn with_a_template()
    ensures replies { replies_after (name_servers (Some 300)) (datagram ∷ datagram ∷ []) ≡ direct_to 1 udp_packet ∷ direct_to 1 udp_packet ∷ [] }
    ensures template { (left_by (name_servers (Some 300) ++ datagram ∷ datagram ∷ [])).templates ≡ name_template ∷ [] }
    ensures entries { (left_by (name_servers (Some 300) ++ datagram ∷ datagram ∷ [])).entries ≡ [] }
{}

/// TCP packets that such a service takes by their mark make entries as ever.
pub fn tcp_as_ever()
    ensures { map (λ (e : Entry). e.key.proto) (left_by (one_packet_mark ++ item.Incoming 7 udp_packet ∷ marked 7 syn_segment ∷ [])).entries ≡ Tcp ∷ [] }
{}
