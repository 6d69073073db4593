//! Worked examples: the templates of persistent services.
ghost use Rattle.std.specs.Prelude.{◌≡◌, [], ◌∷◌, ◌++◌, Some, None, map};
ghost use Rattle.lvs_types.specs.declared.entry.Entry.{Entry};
ghost use Rattle.lvs_types.specs.declared.item.Item.TheVariants as item;
ghost use Rattle.lvs_types.specs.declared.reply.Reply.TheVariants as reply;
ghost use Rattle.lvs_types.specs.declared.settings.Setting.TheVariants as setting;
ghost use Rattle.lvs_model.specs.ExampleItems.{direct_to, left_by, syn, web_packet};
ghost use Rattle.lvs_examples.specs.Packets.{bytes_of, syn_segment, syn_of_neighbour, syn_of_stranger, syn_to_443};
ghost use Rattle.lvs_examples.specs.Items.{arriving, replies_after};
ghost use Rattle.lvs_examples.specs.Tables.{persistent_networks, three_clients, persistent_mark, two_ports, template_of_removed, template_of_quiescent, template_of_overloaded};
ghost use Rattle.lvs_examples.specs.Connections.{client_template, network_template, other_network_template, mark_template};

/// With a mask of 24 bits 172.16.0.9 and 172.16.0.10 share a template, which each new connection renews;
/// 172.16.1.9 gets another one.
pub fn one_server_a_network()
    ensures replies { replies_after persistent_networks three_clients ≡ direct_to 1 (bytes_of syn_segment) ∷ reply.Ticked ∷ direct_to 1 (bytes_of syn_of_neighbour) ∷ direct_to 2 (bytes_of syn_of_stranger) ∷ [] }
    ensures templates { (left_by (persistent_networks ++ three_clients)).templates ≡ network_template ∷ other_network_template ∷ [] }
    ensures made_by { map (λ (e : Entry). e.template) (left_by (persistent_networks ++ three_clients)).entries ≡ Some (record { 0 = 1 }) ∷ Some (record { 0 = 1 }) ∷ Some (record { 0 = 2 }) ∷ [] }
{}

/// The template of a mark service is known by the mark in place of an address: the client's packets to two
/// ports go to one server.
pub fn a_template_of_a_mark()
    ensures replies { replies_after persistent_mark two_ports ≡ direct_to 1 (bytes_of syn_segment) ∷ direct_to 1 (bytes_of syn_to_443) ∷ [] }
    ensures template { (left_by (persistent_mark ++ two_ports)).templates ≡ mark_template ∷ [] }
    ensures ports { map (λ (e : Entry). e.dport) (left_by (persistent_mark ++ two_ports)).entries ≡ 80 ∷ 443 ∷ [] }
{}

/// A template whose server was removed gives way to a new one with a new id.
pub fn a_template_that_is_replaced()
    ensures before { (left_by template_of_removed).templates ≡ client_template 1 ∷ [] }
    ensures reply { replies_after template_of_removed (syn 40001 ∷ []) ≡ direct_to 2 (web_packet 40001 2) ∷ [] }
    ensures after { (left_by (template_of_removed ++ syn 40001 ∷ [])).templates ≡ record (client_template 2) { id = record { 0 = 2 } } ∷ [] }
{}

/// A server without weight keeps the clients of its templates, unless expire_quiescent_template says otherwise.
pub fn a_template_of_a_server_without_weight()
    ensures kept { replies_after template_of_quiescent (syn 40001 ∷ []) ≡ direct_to 1 (web_packet 40001 2) ∷ [] }
    ensures expired { replies_after (item.Set (setting.ExpireQuiescent 1) ∷ template_of_quiescent) (syn 40001 ∷ []) ≡ direct_to 2 (web_packet 40001 2) ∷ [] }
{}

/// Overload doesn't turn a client away from the server of its template, but others.
pub fn a_template_of_an_overloaded_server()
    ensures { replies_after template_of_overloaded (syn 40001 ∷ arriving syn_of_neighbour ∷ []) ≡ direct_to 1 (web_packet 40001 2) ∷ direct_to 2 (bytes_of syn_of_neighbour) ∷ [] }
{}
