//! Laws of every step and every run. A function without a body carries each of them.
ghost use Rattle.std.specs.Prelude.{◌≡◌, ◌≢◌, ℕ, ◌<◌, false, List, None, Some};
ghost use Rattle.std.specs.List.{AllByRecursion};
ghost use Rattle.lvs_types.specs.declared.addr.Addr.{Addr};
ghost use Rattle.lvs_types.specs.declared.command.Command.{Command};
ghost use Rattle.lvs_types.specs.declared.dest.Dest.{Dest};
ghost use Rattle.lvs_types.specs.declared.entry.Entry.{Entry};
ghost use Rattle.lvs_types.specs.declared.head.Malformed.{Malformed};
ghost use Rattle.lvs_types.specs.declared.item.Item.{Item};
ghost use Rattle.lvs_types.specs.declared.item.Item.TheVariants as item;
ghost use Rattle.lvs_types.specs.declared.reply.DropCause.TheVariants as drops;
ghost use Rattle.lvs_types.specs.declared.reply.EditRefused.{EditRefused};
ghost use Rattle.lvs_types.specs.declared.reply.Reply.TheVariants as reply;
ghost use Rattle.lvs_types.specs.declared.service.Service.{Service};
ghost use Rattle.lvs_types.specs.declared.sync.BadSync.{BadSync};
ghost use Rattle.lvs_types.specs.declared.sync.Learnt.{Learnt};
ghost use Rattle.lvs_types.specs.declared.sync.Learnt.TheVariants as learnt;
ghost use Rattle.lvs_types.specs.declared.sync.SyncItem.{SyncItem};
ghost use Rattle.lvs_types.specs.declared.template.Template.{Template};
ghost use Rattle.lvs_model.specs.Lookups.{dest_at, entry_at, service_at, template_at, template_of_id};
ghost use Rattle.lvs_model.specs.State.{State, initial};
ghost use Rattle.lvs_model.specs.Step.{step, run};
ghost use Rattle.lvs_model.specs.WellFormed.{IsWellFormed, entry_ids, dest_ids, template_ids};
ghost use Rattle.lvs_well_formed.specs.Passing.{entry_of_packet, passed};
ghost use Rattle.lvs_well_formed.specs.Rising.{IdsRise, is_among};

/// A director begins well formed, and each step and each run leave it so.
pub fn stays_well_formed()
    ensures begins { (local : Addr) (buckets : ℕ) → IsWellFormed (initial local buckets) }
    ensures goes_on { (s : State) (next : Item) → IsWellFormed s → IsWellFormed (step s next).1 }
    ensures runs { (s : State) (items : List Item) → IsWellFormed s → IsWellFormed (run s items).1 }
{}

/// In a well formed state each service, server, entry and template is the one that its key finds, and the
/// one that its id finds.
pub fn each_is_found()
    ensures services { (s : State) → IsWellFormed s → AllByRecursion (λ (service : Service). service_at service.key s.services ≡ Some service) s.services }
    ensures dests { (s : State) → IsWellFormed s → AllByRecursion (λ (d : Dest). dest_at d.id s.dests ≡ Some d) s.dests }
    ensures entries { (s : State) → IsWellFormed s → AllByRecursion (λ (e : Entry). entry_at e.key s.entries ≡ Some e) s.entries }
    ensures templates { (s : State) → IsWellFormed s → AllByRecursion (λ (t : Template). template_at t.key s.templates ≡ Some t) s.templates }
    ensures templates_by_id { (s : State) → IsWellFormed s → AllByRecursion (λ (t : Template). template_of_id t.id s.templates ≡ Some t) s.templates }
{}

/// The next ids never fall, and each id of a later state is one of the earlier ones, or at least the
/// earlier next one.
pub fn ids_rise()
    ensures goes_on { (s : State) (next : Item) → IsWellFormed s → IdsRise s (step s next).1 }
    ensures runs { (s : State) (items : List Item) → IsWellFormed s → IdsRise s (run s items).1 }
{}

/// An id that was drawn and is there no more never comes back.
pub fn ids_are_never_used_again()
    ensures entries { (s : State) (items : List Item) (id : ℕ) → IsWellFormed s → id < s.next_entry → is_among (entry_ids s.entries) id ≡ false → is_among (entry_ids (run s items).1.entries) id ≡ false }
    ensures dests { (s : State) (items : List Item) (id : ℕ) → IsWellFormed s → id < s.next_dest → is_among (dest_ids s.dests) id ≡ false → is_among (dest_ids (run s items).1.dests) id ≡ false }
    ensures templates { (s : State) (items : List Item) (id : ℕ) → IsWellFormed s → id < s.next_template → is_among (template_ids s.templates) id ≡ false → is_among (template_ids (run s items).1.templates) id ≡ false }
{}

/// A refused edit, a record that isn't accepted and a message that can't be read leave the state as it was.
pub fn refusals_leave_the_state()
    ensures edits { (s : State) (command : Command) (why : EditRefused) → (step s (item.Edit command)).0 ≡ reply.Refused why → (step s (item.Edit command)).1 ≡ s }
    ensures records { (s : State) (sync_id : ℕ) (record_item : SyncItem) (answer : Learnt) → (step s (item.Learn sync_id record_item)).0 ≡ reply.Learnt answer → answer ≢ learnt.Accepted → (step s (item.Learn sync_id record_item)).1 ≡ s }
    ensures messages { (s : State) (why : BadSync) → (step s (item.BadSync why)).1 ≡ s }
{}

/// So do a packet that is malformed and one that is too long, an outgoing packet that is passed on, and an
/// incoming one that is passed on and has no entry. Where an incoming packet that is passed on has an entry,
/// it was one that takes up the entry's place: the entry has ended, and what its binding left stays.
pub fn dropped_and_passed_packets_leave_the_state()
    ensures malformed { (s : State) (mark : ℕ) (bytes : List ℕ) (why : Malformed) → (step s (item.Incoming mark bytes)).0 ≡ reply.Drop (drops.Malformed why) → (step s (item.Incoming mark bytes)).1 ≡ s }
    ensures too_long { (s : State) (mark : ℕ) (bytes : List ℕ) → (step s (item.Incoming mark bytes)).0 ≡ reply.Drop drops.TooLong → (step s (item.Incoming mark bytes)).1 ≡ s }
    ensures pass { (s : State) (mark : ℕ) (bytes : List ℕ) → (step s (item.Incoming mark bytes)).0 ≡ reply.Pass → (step s (item.Incoming mark bytes)).1 ≡ passed s (entry_of_packet s bytes) }
    ensures pass_unknown { (s : State) (mark : ℕ) (bytes : List ℕ) → entry_of_packet s bytes ≡ None → (step s (item.Incoming mark bytes)).0 ≡ reply.Pass → (step s (item.Incoming mark bytes)).1 ≡ s }
    ensures malformed_out { (s : State) (bytes : List ℕ) (why : Malformed) → (step s (item.Outgoing bytes)).0 ≡ reply.Drop (drops.Malformed why) → (step s (item.Outgoing bytes)).1 ≡ s }
    ensures pass_out { (s : State) (bytes : List ℕ) → (step s (item.Outgoing bytes)).0 ≡ reply.Pass → (step s (item.Outgoing bytes)).1 ≡ s }
{}
