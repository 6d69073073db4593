//! Worked examples: what is delivered from a master to its backup, and what is written of both.
ghost use Rattle.std.specs.Prelude.{◌≡◌, [], ◌∷◌, ◌++◌, codes};
ghost use Rattle.lvs_types.specs.declared.item.Item.TheVariants as item;
ghost use Rattle.lvs_types.specs.declared.reply.Reply.TheVariants as reply;
ghost use Rattle.lvs_types.specs.declared.script.ScriptLine.TheVariants as line;
ghost use Rattle.lvs_model.specs.MessageExamples.{version_0, version_1};
ghost use Rattle.lvs_model.specs.Pairs.{delivered, sent_messages, with_delivered, pair_text};

use lvs_types::Addr;

const LOCAL: Addr = Addr {
    number: 0x0a00_00fd,
};

/// Three messages, by counts.
pub fn messages_delivered()
    ensures lost { delivered ((7 ∷ []) ∷ (8 ∷ []) ∷ (9 ∷ []) ∷ []) (0 ∷ []) ≡ [] }
    ensures once { delivered ((7 ∷ []) ∷ (8 ∷ []) ∷ (9 ∷ []) ∷ []) (1 ∷ []) ≡ (7 ∷ []) ∷ (8 ∷ []) ∷ (9 ∷ []) ∷ [] }
    ensures twice { delivered ((7 ∷ []) ∷ (8 ∷ []) ∷ (9 ∷ []) ∷ []) (2 ∷ []) ≡ (7 ∷ []) ∷ (7 ∷ []) ∷ (8 ∷ []) ∷ (8 ∷ []) ∷ (9 ∷ []) ∷ (9 ∷ []) ∷ [] }
    ensures first_alone { delivered ((7 ∷ []) ∷ (8 ∷ []) ∷ (9 ∷ []) ∷ []) (1 ∷ 0 ∷ []) ≡ (7 ∷ []) ∷ [] }
    ensures counts_left { delivered ((7 ∷ []) ∷ []) (2 ∷ 1 ∷ []) ≡ (7 ∷ []) ∷ (7 ∷ []) ∷ [] }
    ensures none { delivered [] (2 ∷ []) ≡ [] }
{}

/// The messages of a round that swept, sent none in one act and two in another.
pub fn messages_sent()
    ensures { sent_messages (record { number = 0; moment = 0; workers = 1; buckets = 1; acts = record { actor = 0; number = 0; item = item.Sweep 0; reply = reply.Swept 0 } ∷ record { actor = 0; number = 1; item = item.SendSync; reply = reply.Sent [] } ∷ []; shown = [] } ∷ record { number = 1; moment = 9; workers = 1; buckets = 1; acts = record { actor = 0; number = 0; item = item.SendSync; reply = reply.Sent (version_1 ∷ version_0 ∷ []) } ∷ []; shown = [] } ∷ []) ≡ version_1 ∷ version_0 ∷ [] }
{}

/// The backup's script with the round in which messages arrive.
pub fn a_round_inserted()
    ensures behind_the_first { with_delivered (version_1 ∷ version_1 ∷ []) (record { local = LOCAL; rounds = record { moment = 100; lines = line.Incoming 0 (69 ∷ []) ∷ [] } ∷ record { moment = 110; lines = [] } ∷ [] }) ≡ record { local = LOCAL; rounds = record { moment = 100; lines = line.Incoming 0 (69 ∷ []) ∷ [] } ∷ record { moment = 100; lines = line.Sync version_1 ∷ line.Sync version_1 ∷ [] } ∷ record { moment = 110; lines = [] } ∷ [] } }
    ensures alone { with_delivered (version_1 ∷ []) (record { local = LOCAL; rounds = [] }) ≡ record { local = LOCAL; rounds = record { moment = 0; lines = line.Sync version_1 ∷ [] } ∷ [] } }
    ensures nothing_arrives { with_delivered [] (record { local = LOCAL; rounds = record { moment = 100; lines = [] } ∷ [] }) ≡ record { local = LOCAL; rounds = record { moment = 100; lines = [] } ∷ record { moment = 100; lines = [] } ∷ [] } }
{}

/// What is written of a pair.
pub fn a_pair_written()
    ensures heads { pair_text (record { number = 0; moment = 100; workers = 1; buckets = 1; acts = []; shown = [] } ∷ []) (record { number = 0; moment = 110; workers = 1; buckets = 1; acts = []; shown = [] } ∷ []) ≡ codes "round 0 at 100 workers 1 buckets 1" ++ 10 ∷ codes "backup" ++ 10 ∷ codes "round 0 at 110 workers 1 buckets 1" ++ 10 ∷ [] }
    ensures empty { pair_text [] [] ≡ codes "backup" ++ 10 ∷ [] }
{}
