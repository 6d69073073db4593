//! Worked examples: the records that a master collects and sends.
ghost use Rattle.std.specs.Prelude.{◌≡◌, [], ◌∷◌, ◌++◌, Some, None, map, length};
ghost use Rattle.lvs_types.specs.declared.command.Command.TheVariants as command;
ghost use Rattle.lvs_types.specs.declared.item.Item.TheVariants as item;
ghost use Rattle.lvs_types.specs.declared.reply.Reply.TheVariants as reply;
ghost use Rattle.lvs_types.specs.declared.settings.Setting.TheVariants as setting;
ghost use Rattle.lvs_model.specs.Sending.{messages_of, runs_of_40};
ghost use Rattle.lvs_model.specs.ExampleItems.{left_by, syn, ack};
ghost use Rattle.lvs_examples.specs.Items.{replies_after};
ghost use Rattle.lvs_examples.specs.Tables.{two_servers, on_a_master};
ghost use Rattle.lvs_examples.specs.Records.{connection_to, template_to, message_of_both, old_message_of_both, forty_one};

/// The record of a connection is due when it becomes established, and that of its template follows it; again
/// at the third packet, and not at the fourth. A SYN makes none due.
pub fn a_template_follows_its_connection()
    ensures after_syn { (left_by (on_a_master (Some 300))).pending ≡ [] }
    ensures after_ack { (left_by (on_a_master (Some 300) ++ ack 40000 ∷ [])).pending ≡ connection_to 1 ∷ template_to 1 ∷ [] }
    ensures again { (left_by (on_a_master (Some 300) ++ ack 40000 ∷ ack 40000 ∷ [])).pending ≡ connection_to 1 ∷ template_to 1 ∷ connection_to 1 ∷ template_to 1 ∷ [] }
    ensures not_at_the_fourth { (left_by (on_a_master (Some 300) ++ ack 40000 ∷ ack 40000 ∷ item.SendSync ∷ ack 40000 ∷ [])).pending ≡ [] }
{}

/// Without a template the connection's record stands alone, and without a master there is none.
pub fn records_alone()
    ensures connection { (left_by (on_a_master None ++ ack 40000 ∷ [])).pending ≡ connection_to 1 ∷ [] }
    ensures no_master { (left_by (two_servers (Some 300) ++ syn 40000 ∷ ack 40000 ∷ [])).pending ≡ [] }
{}

/// Both records leave in one message, in either version, and then none is pending. A master that stops drops
/// them.
pub fn they_are_sent()
    ensures message { replies_after (on_a_master (Some 300) ++ ack 40000 ∷ []) (item.SendSync ∷ item.SendSync ∷ []) ≡ reply.Sent (message_of_both ∷ []) ∷ reply.Sent [] ∷ [] }
    ensures version_0 { replies_after (on_a_master (Some 300) ++ ack 40000 ∷ item.Set (setting.SyncVersion 0) ∷ []) (item.SendSync ∷ []) ≡ reply.Sent (old_message_of_both ∷ []) ∷ [] }
    ensures emptied { (left_by (on_a_master (Some 300) ++ ack 40000 ∷ item.SendSync ∷ [])).pending ≡ [] }
    ensures dropped { (left_by (on_a_master (Some 300) ++ ack 40000 ∷ item.Edit command.StopMaster ∷ [])).pending ≡ [] }
{}

/// A message has at most 40 records: 41 leave in messages of 1,448 and of 44 bytes.
pub fn messages_of_40()
    ensures sizes { map length (messages_of 1 7 forty_one) ≡ 1448 ∷ 44 ∷ [] }
    ensures runs { map length (runs_of_40 forty_one) ≡ 40 ∷ 1 ∷ [] }
    ensures none { messages_of 1 7 [] ≡ [] }
{}
