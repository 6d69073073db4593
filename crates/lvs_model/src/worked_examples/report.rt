//! Worked examples: the text of a report.
ghost use Rattle.std.specs.Prelude.{◌≡◌, List, ℕ, [], ◌∷◌, ◌++◌, codes};
ghost use Rattle.lvs_types.specs.declared.reply.Reply.{Reply};
ghost use Rattle.lvs_types.specs.declared.item.Item.{Item};
ghost use Rattle.lvs_types.specs.declared.book.Shown.{Shown};
ghost use Rattle.lvs_types.specs.declared.service.Method.{Method};
ghost use Rattle.lvs_model.specs.Report.{acts_text, head_text, listings_text, round_text};

/// The head of a round.
pub fn a_head()
    ensures { head_text (record { number = 0; moment = 100; workers = 4; buckets = 16; acts = []; shown = [] }) ≡ codes "round 0 at 100 workers 4 buckets 16" ++ 10 ∷ [] }
{}

/// What changes nothing isn't printed, and its place counts.
pub fn silent_acts_count()
    ensures { acts_text 0 (record { actor = 0; number = 0; item = Item.Sweep 0; reply = Reply.Swept 0 } ∷ record { actor = 0; number = 1; item = Item.Reap; reply = Reply.Reaped 0 1 0 } ∷ record { actor = 0; number = 2; item = Item.SendSync; reply = Reply.Sent [] } ∷ record { actor = 3; number = 0; item = Item.Outgoing (69 ∷ []); reply = Reply.Outward (69 ∷ 255 ∷ []) } ∷ []) ≡ codes "1 0.1 reaped 0 1 0" ++ 10 ∷ codes "3 3.0 out 45ff" ++ 10 ∷ [] }
{}

/// A listing stands between its name and a line `end`.
pub fn a_listing()
    ensures { listings_text (record { kind = Shown.IcmpIn (69 ∷ []); text = codes "pass" ++ 10 ∷ [] } ∷ []) ≡ codes "icmp in 45" ++ 10 ∷ codes "pass" ++ 10 ∷ codes "end" ++ 10 ∷ [] }
{}

/// Three packets that go to the first, the second and the first server: the first places are the
/// sweep and the reap, the last one is the sending of nothing.
pub fn three_syns()
    ensures { (clock edit packet : Item) → round_text (record { number = 0; moment = 0; workers = 1; buckets = 1; acts = record { actor = 0; number = 0; item = clock; reply = Reply.Swept 0 } ∷ record { actor = 0; number = 1; item = clock; reply = Reply.Reaped 0 0 0 } ∷ record { actor = 1; number = 0; item = edit; reply = Reply.Done } ∷ record { actor = 1; number = 1; item = edit; reply = Reply.Done } ∷ record { actor = 1; number = 2; item = edit; reply = Reply.Done } ∷ record { actor = 3; number = 0; item = packet; reply = Reply.Forward Method.Direct (record { number = 3232235521 }) (69 ∷ 0 ∷ 0 ∷ 40 ∷ 0 ∷ 1 ∷ 64 ∷ 0 ∷ 64 ∷ 6 ∷ 132 ∷ 181 ∷ 172 ∷ 16 ∷ 0 ∷ 9 ∷ 10 ∷ 0 ∷ 0 ∷ 1 ∷ 156 ∷ 64 ∷ 0 ∷ 80 ∷ 0 ∷ 0 ∷ 0 ∷ 0 ∷ 0 ∷ 0 ∷ 0 ∷ 0 ∷ 80 ∷ 2 ∷ 32 ∷ 0 ∷ 61 ∷ 56 ∷ 0 ∷ 0 ∷ []) } ∷ record { actor = 3; number = 1; item = packet; reply = Reply.Forward Method.Direct (record { number = 3232235522 }) (69 ∷ 0 ∷ 0 ∷ 40 ∷ 0 ∷ 1 ∷ 64 ∷ 0 ∷ 64 ∷ 6 ∷ 132 ∷ 181 ∷ 172 ∷ 16 ∷ 0 ∷ 9 ∷ 10 ∷ 0 ∷ 0 ∷ 1 ∷ 156 ∷ 65 ∷ 0 ∷ 80 ∷ 0 ∷ 0 ∷ 0 ∷ 0 ∷ 0 ∷ 0 ∷ 0 ∷ 0 ∷ 80 ∷ 2 ∷ 32 ∷ 0 ∷ 61 ∷ 55 ∷ 0 ∷ 0 ∷ []) } ∷ record { actor = 3; number = 2; item = packet; reply = Reply.Forward Method.Direct (record { number = 3232235521 }) (69 ∷ 0 ∷ 0 ∷ 40 ∷ 0 ∷ 1 ∷ 64 ∷ 0 ∷ 64 ∷ 6 ∷ 132 ∷ 181 ∷ 172 ∷ 16 ∷ 0 ∷ 9 ∷ 10 ∷ 0 ∷ 0 ∷ 1 ∷ 156 ∷ 66 ∷ 0 ∷ 80 ∷ 0 ∷ 0 ∷ 0 ∷ 0 ∷ 0 ∷ 0 ∷ 0 ∷ 0 ∷ 80 ∷ 2 ∷ 32 ∷ 0 ∷ 61 ∷ 54 ∷ 0 ∷ 0 ∷ []) } ∷ record { actor = 0; number = 2; item = clock; reply = Reply.Sent [] } ∷ []; shown = [] }) ≡ codes "round 0 at 0 workers 1 buckets 1" ++ 10 ∷ codes "2 1.0 ok" ++ 10 ∷ codes "3 1.1 ok" ++ 10 ∷ codes "4 1.2 ok" ++ 10 ∷ codes "5 3.0 fwd direct 192.168.0.1 4500002800014000400684b5ac1000090a0000019c4000500000000000000000500220003d380000" ++ 10 ∷ codes "6 3.1 fwd direct 192.168.0.2 4500002800014000400684b5ac1000090a0000019c4100500000000000000000500220003d370000" ++ 10 ∷ codes "7 3.2 fwd direct 192.168.0.1 4500002800014000400684b5ac1000090a0000019c4200500000000000000000500220003d360000" ++ 10 ∷ [] }
{}
