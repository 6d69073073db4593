//! Worked examples: the text of a round with a reply of every kind, and the word of every cause.
ghost use Rattle.std.specs.Prelude.{◌≡◌, [], ◌∷◌, map, codes};
ghost use Rattle.lvs_types.specs.declared.head.Malformed.TheVariants as malformed;
ghost use Rattle.lvs_types.specs.declared.item.Item.{Item};
ghost use Rattle.lvs_types.specs.declared.reply.DropCause.TheVariants as drops;
ghost use Rattle.lvs_types.specs.declared.reply.EditRefused.TheVariants as refused;
ghost use Rattle.lvs_types.specs.declared.sync.BadSync.TheVariants as bad;
ghost use Rattle.lvs_types.specs.declared.sync.Learnt.TheVariants as learnt;
ghost use Rattle.lvs_model.specs.Report.{round_text, drop_text, malformed_text, refused_text, learnt_text, bad_sync_text};
ghost use Rattle.lvs_examples.specs.Rounds.{round_of_each_kind, text_of_each_kind};

/// Every kind of reply in its line, whatever was asked: a sweep that ended none and a tick have no line.
pub fn a_round_of_each_kind()
    ensures { (asked : Item) → round_text (round_of_each_kind asked) ≡ text_of_each_kind }
{}

/// A cause is printed by its name, in lower case.
pub fn words_of_causes()
    ensures dropped { map drop_text (drops.Malformed malformed.Short ∷ drops.NoDest ∷ drops.Gone ∷ drops.TooLong ∷ []) ≡ codes "malformed short" ∷ codes "nodest" ∷ codes "gone" ∷ codes "toolong" ∷ [] }
    ensures malformed { map malformed_text (malformed.Short ∷ malformed.Version ∷ malformed.HeaderLength ∷ malformed.TotalLength ∷ malformed.HeaderSum ∷ malformed.L4Short ∷ []) ≡ codes "short" ∷ codes "version" ∷ codes "headerlength" ∷ codes "totallength" ∷ codes "headersum" ∷ codes "l4short" ∷ [] }
    ensures refused { map refused_text (refused.Exists ∷ refused.NoService ∷ refused.NoDest ∷ refused.Thresholds ∷ refused.Running ∷ refused.NotRunning ∷ []) ≡ codes "exists" ∷ codes "noservice" ∷ codes "nodest" ∷ codes "thresholds" ∷ codes "running" ∷ codes "notrunning" ∷ [] }
    ensures learnt { map learnt_text (learnt.Accepted ∷ learnt.Off ∷ learnt.OtherId ∷ learnt.V6 ∷ learnt.BadProto ∷ learnt.BadState ∷ learnt.BadMethod ∷ []) ≡ codes "accepted" ∷ codes "off" ∷ codes "otherid" ∷ codes "v6" ∷ codes "badproto" ∷ codes "badstate" ∷ codes "badmethod" ∷ [] }
    ensures bad_sync { map bad_sync_text (bad.Short ∷ bad.Version ∷ bad.Size ∷ bad.RecordShort ∷ bad.RecordVersion ∷ bad.Options ∷ bad.Count ∷ []) ≡ codes "short" ∷ codes "version" ∷ codes "size" ∷ codes "recordshort" ∷ codes "recordversion" ∷ codes "options" ∷ codes "count" ∷ [] }
{}
