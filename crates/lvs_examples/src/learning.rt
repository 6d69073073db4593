//! Worked examples: what records of sync messages make of the tables of a backup.
ghost use Rattle.std.specs.Prelude.{◌≡◌, [], ◌∷◌, ◌++◌, Some, None, true, false, map};
ghost use Rattle.lvs_types.specs.declared.dest.Dest.{Dest};
ghost use Rattle.lvs_types.specs.declared.item.Item.TheVariants as item;
ghost use Rattle.lvs_types.specs.declared.reply.Reply.TheVariants as reply;
ghost use Rattle.lvs_types.specs.declared.sync.Learnt.TheVariants as learnt;
ghost use Rattle.lvs_model.specs.ExampleItems.{direct_to, left_by, syn, web_packet};
ghost use Rattle.lvs_examples.specs.Items.{learn_from_master, replies_after};
ghost use Rattle.lvs_examples.specs.Tables.{on_a_backup, full_server};
ghost use Rattle.lvs_examples.specs.Records.{connection_to, template_to};
ghost use Rattle.lvs_examples.specs.Connections.{learnt_entry, client_template};

/// A learnt template is bound at once, and gives its server to the client, out of turn.
pub fn a_learnt_template()
    ensures replies { replies_after (on_a_backup (Some 300)) (learn_from_master (template_to 2) ∷ syn 40000 ∷ []) ≡ reply.Learnt learnt.Accepted ∷ direct_to 2 (web_packet 40000 2) ∷ [] }
    ensures template { (left_by (on_a_backup (Some 300) ++ learn_from_master (template_to 2) ∷ [])).templates ≡ client_template 2 ∷ [] }
{}

/// A record of its key with another server takes its place, with a new id.
pub fn a_learnt_template_is_replaced()
    ensures { (left_by (on_a_backup (Some 300) ++ learn_from_master (template_to 1) ∷ learn_from_master (template_to 2) ∷ [])).templates ≡ record (client_template 2) { id = record { 0 = 2 } } ∷ [] }
{}

/// A recorded timeout of 0 counts as 180 seconds, from the moment at which the record comes.
pub fn a_timeout_of_0()
    ensures entry { (left_by (on_a_backup None ++ item.Tick 20 ∷ learn_from_master (record (connection_to 2) { timeout = 0 }) ∷ [])).entries ≡ record (learnt_entry 2) { timeout = 180; deadline = 200 } ∷ [] }
    ensures template { (left_by (on_a_backup (Some 300) ++ item.Tick 20 ∷ learn_from_master (record (template_to 2) { timeout = 0 }) ∷ [])).templates ≡ record (client_template 2) { timeout = 180; deadline = 200 } ∷ [] }
{}

/// A record with the server of the entry that is there changes its state and times; its id and its packets
/// stay.
pub fn a_record_of_the_same_server()
    ensures { (left_by (on_a_backup None ++ syn 40000 ∷ item.Tick 20 ∷ learn_from_master (connection_to 1) ∷ [])).entries ≡ record (learnt_entry 1) { packets = 1 } ∷ [] }
{}

/// A record with another server ends the entry: the new one has a new id, and the old server is free again.
pub fn a_record_of_another_server()
    ensures before { map (λ (d : Dest). d.overloaded) (left_by full_server).dests ≡ true ∷ false ∷ [] }
    ensures entry { (left_by (full_server ++ item.Tick 20 ∷ learn_from_master (connection_to 2) ∷ [])).entries ≡ record (learnt_entry 2) { id = 2 } ∷ [] }
    ensures relieved { map (λ (d : Dest). d.overloaded) (left_by (full_server ++ item.Tick 20 ∷ learn_from_master (connection_to 2) ∷ [])).dests ≡ false ∷ false ∷ [] }
{}
