//! Worked examples: which service takes a packet.
ghost use Rattle.std.specs.Prelude.{◌≡◌, [], ◌∷◌, ◌++◌, map};
ghost use Rattle.lvs_types.specs.declared.entry.Entry.{Entry};
ghost use Rattle.lvs_types.specs.declared.reply.Reply.TheVariants as reply;
ghost use Rattle.lvs_model.specs.ExampleItems.{direct_to, left_by};
ghost use Rattle.lvs_examples.specs.Packets.{bytes_of, syn_segment, syn_to_443, syn_elsewhere};
ghost use Rattle.lvs_examples.specs.Items.{arriving, marked, replies_after};
ghost use Rattle.lvs_examples.specs.Tables.{three_services, packet_for_each, datagram};

/// The service of a packet's mark comes before the one of its address and port, and this before the one of
/// port 0, whichever was added first. A mark without a service is as none.
pub fn services_in_order()
    ensures of_mark { replies_after three_services (marked 7 syn_segment ∷ marked 7 syn_elsewhere ∷ []) ≡ direct_to 3 (bytes_of syn_segment) ∷ direct_to 3 (bytes_of syn_elsewhere) ∷ [] }
    ensures of_port { replies_after three_services (arriving syn_segment ∷ []) ≡ direct_to 1 (bytes_of syn_segment) ∷ [] }
    ensures of_other_mark { replies_after three_services (marked 8 syn_segment ∷ []) ≡ direct_to 1 (bytes_of syn_segment) ∷ [] }
    ensures of_every_port { replies_after three_services (arriving syn_to_443 ∷ []) ≡ direct_to 2 (bytes_of syn_to_443) ∷ [] }
    ensures of_none { replies_after three_services (arriving syn_elsewhere ∷ datagram ∷ []) ≡ reply.Pass ∷ reply.Pass ∷ [] }
{}

/// An entry has the mark of its service, which is 0 for a service of an address. A server of port 0 takes the
/// packet's port.
pub fn their_entries()
    ensures marks { map (λ (e : Entry). e.mark) (left_by (three_services ++ packet_for_each)).entries ≡ 7 ∷ 0 ∷ 0 ∷ [] }
    ensures ports { map (λ (e : Entry). e.dport) (left_by (three_services ++ packet_for_each)).entries ≡ 443 ∷ 80 ∷ 443 ∷ [] }
{}
