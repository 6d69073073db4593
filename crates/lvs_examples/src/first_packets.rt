//! Worked examples: which packets make a connection, and in which state it begins.
ghost use Rattle.std.specs.Prelude.{◌≡◌, [], ◌∷◌, ◌++◌, Some, None, map};
ghost use Rattle.lvs_types.specs.declared.entry.Entry.{Entry};
ghost use Rattle.lvs_types.specs.declared.entry.TcpState.TheVariants as state;
ghost use Rattle.lvs_types.specs.declared.item.Item.TheVariants as item;
ghost use Rattle.lvs_types.specs.declared.reply.Reply.TheVariants as reply;
ghost use Rattle.lvs_types.specs.declared.settings.Setting.TheVariants as setting;
ghost use Rattle.lvs_model.specs.ExampleItems.{syn, ack, reset, web_packet, direct_to, left_by};
ghost use Rattle.lvs_examples.specs.Items.{replies_after};
ghost use Rattle.lvs_examples.specs.Tables.{two_servers, name_server, datagram};

/// A TCP packet without SYN makes none, unless sloppy_tcp is set; one with RST never does.
pub fn first_packets()
    ensures strict { replies_after (two_servers None) (ack 40000 ∷ reset 40000 ∷ item.Incoming 0 (web_packet 40000 6) ∷ syn 40000 ∷ []) ≡ reply.Pass ∷ reply.Pass ∷ reply.Pass ∷ direct_to 1 (web_packet 40000 2) ∷ [] }
    ensures sloppy { replies_after (item.Set (setting.SloppyTcp 1) ∷ two_servers None) (reset 40000 ∷ item.Incoming 0 (web_packet 40000 6) ∷ ack 40000 ∷ []) ≡ reply.Pass ∷ reply.Pass ∷ direct_to 1 (web_packet 40000 16) ∷ [] }
{}

/// The first state is that of the packet after NONE: SYN_RECV by a SYN, ESTABLISHED by an ACK, CLOSE by a FIN.
/// UDP has none.
pub fn first_states()
    ensures tcp { map (λ (e : Entry). e.state) (left_by (item.Set (setting.SloppyTcp 1) ∷ two_servers None ++ syn 40000 ∷ ack 40001 ∷ item.Incoming 0 (web_packet 40002 1) ∷ [])).entries ≡ Some state.SynRecv ∷ Some state.Established ∷ Some state.Close ∷ [] }
    ensures deadlines { map (λ (e : Entry). e.deadline) (left_by (item.Set (setting.SloppyTcp 1) ∷ two_servers None ++ syn 40000 ∷ ack 40001 ∷ item.Incoming 0 (web_packet 40002 1) ∷ [])).entries ≡ 60 ∷ 900 ∷ 10 ∷ [] }
    ensures udp { map (λ (e : Entry). e.state) (left_by (name_server ++ datagram ∷ [])).entries ≡ None ∷ [] }
    ensures udp_deadline { map (λ (e : Entry). e.deadline) (left_by (name_server ++ datagram ∷ [])).entries ≡ 300 ∷ [] }
{}
