//! What the rules ask of tables.
ghost use Rattle.std.specs.Prelude.{◌≡◌, ℕ, ◌+◌, ◌-◌, ◌<◌, ◌≤◌, ◌^◌, ◌++◌, ◌∷◌, ◌&&◌, [], true, false, None, Some, length, vec_capacity, map, slice_get, IfSome, IfOk, OnOk, OnErr};
ghost use Rattle.std.specs.List.{find, filter, list_any};

use crate::view::View;
use lvs_types::{
    Addr, Candidate, Cursor, Daemons, Dest, DestId, DestSpec, Entry, NoMemory, Proto, Reply,
    Service, ServiceKey, Settings, SyncRecord, Template, TemplateId, TemplateKey,
};
use std::alloc::Global;
use std::marker::Brand;

/// The state that the tables stood for before the item. Whoever calls a rule names it.
pub trait Whole {
    ghost use Rattle.lvs_model.specs.State.{State};

    ghost whole: { State };
}

impl Whole for Brand {
    ghost use Rattle.lvs_rules.specs.Changes.{nothing};

    ghost whole = { nothing };
}

/// Tables that stand for a state. What is known of an entry, a server or a template that was looked
/// up is handed on as a token (`holds`, `serves`, `gives`), which each change of another table
/// keeps. After `make_room` no change that an item's packet or record makes can fail.
pub trait Tables<W: Whole> {
    ghost use Rattle.lvs_types.specs.declared.dest.Dest.{Dest};
    ghost use Rattle.lvs_types.specs.declared.entry.Entry.{Entry};
    ghost use Rattle.lvs_types.specs.declared.template.Template.{Template};
    ghost use Rattle.lvs_types.specs.Thresholds.{has_bad_thresholds};
    ghost use Rattle.lvs_model.specs.State.{State};
    ghost use Rattle.lvs_model.specs.Lists.{update_first, without};
    ghost use Rattle.lvs_model.specs.Lookups.{dest_at, service_at, find_service, template_at, template_of_id, servers_of, has_service_key, has_entry_id, is_server_of, is_server_at};
    ghost use Rattle.lvs_model.specs.Counts.{candidates, total};
    ghost use Rattle.lvs_model.specs.Binding.{put_entry, put_template, bind_entry, serves_at};
    ghost use Rattle.lvs_model.specs.Scheduling.{with_cursor, replace_template};
    ghost use Rattle.lvs_model.specs.Edits.{with_fresh_cursor, place_server, is_revivable, respecified, remove_dests, remove_dest};
    ghost use Rattle.lvs_model.specs.Incoming.{end_entry};
    ghost use Rattle.lvs_model.specs.Clock.{is_swept, sweep, reap};
    ghost use Rattle.lvs_model.specs.WellFormed.{IsThere};
    ghost use Rattle.lvs_rules.specs.Bounds.{HasHeadroom, IsNextUnnamed};
    ghost use Rattle.lvs_rules.specs.Changes.{HaveSameNames, IsTemplateUpdate, appended, entered};
    ghost use Rattle.lvs_rules.specs.Views.{seen_in};

    /// The state that they stand for.
    ghost state: { Self → State };

    /// What the tables keep beside the lists agrees with them.
    ghost is_sound: { Self → Type 0 };

    /// The entry is the one of the item, as it now is.
    ghost holds: { Self → Entry → Type 0 };

    /// No entry of the item is there.
    ghost is_free: { Self → Type 0 };

    /// The server is the one of its id.
    ghost serves: { Self → Dest → Type 0 };

    /// The template is the one of its key.
    ghost gives: { Self → Template → Type 0 };

    /// There is room for one more entry.
    ghost has_room: { Self → Type 0 };

    /// There is room for one more template.
    ghost has_template_room: { Self → Type 0 };

    /// So many more records have room.
    ghost record_room: { Self → ℕ };

    // ---- numbers, settings and daemons

    /// The present moment, in seconds.
    fn moment(&self) -> u64
        ensures { result ≡ (state self.now).now };

    fn set_moment(&mut self, moment: u64)
        requires sound { is_sound self.old }
        ensures state { state self.new ≡ record (state self.old) { now = moment } }
        ensures sound { is_sound self.new };

    /// The address at which tunnels begin.
    fn local(&self) -> Addr
        ensures { result ≡ (state self.now).local };

    fn settings(&self) -> &Settings
        ensures { result.now ≡ (state self.now).settings };

    fn set_settings(&mut self, settings: Settings)
        requires sound { is_sound self.old }
        ensures state { state self.new ≡ record (state self.old) { settings = settings } }
        ensures sound { is_sound self.new };

    fn daemons(&self) -> Daemons
        ensures { result ≡ (state self.now).daemons };

    fn set_daemons(&mut self, daemons: Daemons)
        requires sound { is_sound self.old }
        ensures state { state self.new ≡ record (state self.old) { daemons = daemons } }
        ensures sound { is_sound self.new };

    /// The id of the next new entry.
    fn next_entry(&self) -> u64
        ensures { result ≡ (state self.now).next_entry };

    /// The id of the next new template.
    fn next_template(&self) -> u64
        ensures { result ≡ (state self.now).next_template };

    /// Room for all that a packet or a record may add: an entry, a template and two records. The
    /// state stays.
    fn make_room(&mut self) -> Result<(), NoMemory>
        requires sound { is_sound self.old }
        requires headroom { HasHeadroom (state self.old) }
        ensures state { state self.new ≡ state self.old }
        ensures sound { is_sound self.new }
        ensures holds { (e : Entry) → holds self.old e → holds self.new e }
        ensures free { is_free self.old → is_free self.new }
        ensures room { OnOk result (has_room self.new) }
        ensures template_room { OnOk result (has_template_room self.new) }
        ensures record_room { OnOk result (2 ≤ record_room self.new) };

    // ---- services

    /// The service of a key.
    fn service(&self, key: ServiceKey) -> Option<Service>
        ensures { result ≡ service_at key (state self.now).services };

    /// Whether a service of the key is there.
    fn is_service(&self, key: ServiceKey) -> bool
        ensures { result ≡ list_any (has_service_key key) (state self.now).services };

    /// The service of a packet of this protocol, destination and mark.
    fn packet_service(&self, proto: Proto, addr: Addr, port: u16, mark: u32) -> Option<Service>
        ensures { result ≡ find_service proto addr port mark (state self.now).services };

    /// A new service comes last, with a cursor that begins anew.
    fn add_service(&mut self, service: &Service) -> Result<(), NoMemory>
        requires sound { is_sound self.old }
        requires fresh { list_any (has_service_key service.now.key) (state self.old).services ≡ false }
        ensures ok { OnOk result (state self.new ≡ record (state self.old) { services = (state self.old).services ++ with_fresh_cursor service.now ∷ [] }) }
        ensures err { OnErr result (state self.new ≡ state self.old) }
        ensures sound { is_sound self.new };

    /// The service of the key becomes this one, with a cursor that begins anew.
    fn edit_service(&mut self, service: &Service)
        requires sound { is_sound self.old }
        requires there { list_any (has_service_key service.now.key) (state self.old).services ≡ true }
        ensures state { state self.new ≡ record (state self.old) { services = update_first (has_service_key service.now.key) (λ _. with_fresh_cursor service.now) (state self.old).services } }
        ensures sound { is_sound self.new };

    /// The service of the key leaves. Its servers stay.
    fn remove_service(&mut self, key: ServiceKey)
        requires sound { is_sound self.old }
        ensures state { state self.new ≡ record (state self.old) { services = without (has_service_key key) (state self.old).services } }
        ensures sound { is_sound self.new };

    /// All services leave. Their servers stay.
    fn clear_services(&mut self)
        requires sound { is_sound self.old }
        ensures state { state self.new ≡ record (state self.old) { services = [] } }
        ensures sound { is_sound self.new };

    /// The service of the key gets its cursor.
    fn set_cursor(&mut self, key: ServiceKey, cursor: Cursor)
        requires sound { is_sound self.old }
        ensures state { state self.new ≡ with_cursor key cursor (state self.old) }
        ensures sound { is_sound self.new }
        ensures free { is_free self.old → is_free self.new }
        ensures serves { (d : Dest) → serves self.old d → serves self.new d }
        ensures room { has_room self.old → has_room self.new }
        ensures template_room { has_template_room self.old → has_template_room self.new }
        ensures record_room { record_room self.new ≡ record_room self.old };

    // ---- servers

    /// The server of an id, live or in the trash.
    fn server(&self, id: DestId) -> Option<Dest>
        requires sound { is_sound self.now }
        ensures server { result ≡ dest_at id (state self.now).dests }
        ensures serves { IfSome result (serves self.now) };

    /// The live server of the service at this address and port.
    fn server_at(&self, key: ServiceKey, addr: Addr, port: u16) -> Option<Dest>
        requires sound { is_sound self.now }
        ensures server { result ≡ find (is_server_at key addr port) (state self.now).dests }
        ensures serves { IfSome result (serves self.now) };

    /// Whether a live server of the service is at this address and port.
    fn is_server(&self, key: ServiceKey, addr: Addr, port: u16) -> bool
        requires sound { is_sound self.now }
        ensures { result ≡ list_any (is_server_at key addr port) (state self.now).dests };

    /// The first live server of the service that takes the packets of a connection to this address
    /// and port, where `vport` is the virtual one.
    fn server_for(&self, key: ServiceKey, daddr: Addr, dport: u16, vport: u16) -> Option<Dest>
        requires sound { is_sound self.now }
        ensures server { result ≡ find (λ d. is_server_of key d && serves_at daddr dport vport d) (state self.now).dests }
        ensures serves { IfSome result (serves self.now) };

    /// The server at a place among the live ones of the service.
    fn nth_server(&self, key: ServiceKey, place: usize) -> Option<Dest>
        requires sound { is_sound self.now }
        ensures server { result ≡ slice_get (servers_of key (state self.now).dests) place }
        ensures serves { IfSome result (serves self.now) };

    /// At least as many as there are servers, live and in the trash.
    fn count_servers(&self) -> usize
        requires sound { is_sound self.now }
        ensures { length (state self.now).dests ≤ result };

    /// The live servers of the service as a scheduler sees them in the view, in a list that has
    /// room for all servers.
    fn list_candidates(&self, key: ServiceKey, view: &View, found: &mut Vec<Candidate>)
        requires sound { is_sound self.now }
        requires holds { IfSome view.now.ended (holds self.now) }
        requires empty { found.old.items ≡ [] }
        requires room { length (state self.now).dests ≤ vec_capacity found.old }
        ensures { found.new.items ≡ candidates key (seen_in view.now (state self.now)).dests (seen_in view.now (state self.now)).entries };

    /// Their addresses, in a list that has room for all servers.
    fn list_addrs(&self, key: ServiceKey, addrs: &mut Vec<Addr>)
        requires sound { is_sound self.now }
        requires empty { addrs.old.items ≡ [] }
        requires room { length (state self.now).dests ≤ vec_capacity addrs.old }
        ensures { addrs.new.items ≡ map (λ (d : Dest). d.spec.addr) (servers_of key (state self.now).dests) };

    /// How many entries but this one name the server, which is there.
    fn count_others(&self, e: &Entry, id: DestId) -> u64
        requires sound { is_sound self.now }
        requires holds { holds self.now e.now }
        requires there { IsThere (state self.now).dests (Some id) }
        ensures value { result ≡ total id (without (has_entry_id e.now.id) (state self.now).entries) }
        ensures bound { result + 1 < 2 ^ 64 };

    /// A server comes back from the trash, or a new one comes; it stands last. Nothing names the id
    /// that a new one gets.
    fn place_server(&mut self, key: ServiceKey, spec: &DestSpec) -> Result<(), NoMemory>
        requires sound { is_sound self.old }
        requires next { (state self.old).next_dest ≤ 2 ^ 62 }
        requires unnamed { IsNextUnnamed (state self.old) }
        requires service { list_any (has_service_key key) (state self.old).services ≡ true }
        requires fresh { list_any (is_server_at key spec.now.addr spec.now.port) (state self.old).dests ≡ false }
        requires thresholds { has_bad_thresholds spec.now ≡ false }
        ensures ok { OnOk result (state self.new ≡ place_server (state self.old) key spec.now (find (is_revivable key spec.now) (state self.old).dests)) }
        ensures err { OnErr result (state self.new ≡ state self.old) }
        ensures sound { is_sound self.new };

    /// The live server at the address and port of the specification gets it.
    fn respecify_server(&mut self, key: ServiceKey, spec: &DestSpec)
        requires sound { is_sound self.old }
        requires there { list_any (is_server_at key spec.now.addr spec.now.port) (state self.old).dests ≡ true }
        requires thresholds { has_bad_thresholds spec.now ≡ false }
        ensures state { state self.new ≡ record (state self.old) { dests = update_first (is_server_at key spec.now.addr spec.now.port) (respecified (state self.old).entries spec.now) (state self.old).dests } }
        ensures sound { is_sound self.new };

    /// The live server at the address and port leaves its service: it is released where nothing
    /// names it, and else goes to the trash. A cursor of the service that names it goes back to the
    /// one before it.
    fn remove_server(
        &mut self,
        alloc: Global,
        key: ServiceKey,
        addr: Addr,
        port: u16,
        d: &Dest,
    ) -> Result<(), NoMemory>
        requires sound { is_sound self.old }
        requires there { find (is_server_at key addr port) (state self.old).dests ≡ Some d.now }
        ensures ok { OnOk result (state self.new ≡ remove_dest (state self.old) key d.now) }
        ensures err { OnErr result (state self.new ≡ state self.old) }
        ensures sound { is_sound self.new };

    /// All live servers of a service leave it.
    fn remove_servers_of(&mut self, alloc: Global, key: ServiceKey) -> Result<(), NoMemory>
        requires sound { is_sound self.old }
        ensures ok { OnOk result (state self.new ≡ record (state self.old) { dests = remove_dests (is_server_of key) (state self.old).entries (state self.old).templates (state self.old).dests }) }
        ensures err { OnErr result (state self.new ≡ state self.old) }
        ensures sound { is_sound self.new };

    /// All live servers leave their services.
    fn remove_all_servers(&mut self, alloc: Global) -> Result<(), NoMemory>
        requires sound { is_sound self.old }
        ensures ok { OnOk result (state self.new ≡ record (state self.old) { dests = remove_dests (λ (d : Dest). d.live) (state self.old).entries (state self.old).templates (state self.old).dests }) }
        ensures err { OnErr result (state self.new ≡ state self.old) }
        ensures sound { is_sound self.new };

    // ---- templates

    /// The template of a key.
    fn template(&self, key: &TemplateKey) -> Option<Template>
        requires sound { is_sound self.now }
        ensures template { result ≡ template_at key.now (state self.now).templates }
        ensures gives { IfSome result (gives self.now) };

    /// The template of an id.
    fn template_of(&self, id: TemplateId) -> Option<Template>
        requires sound { is_sound self.now }
        ensures { result ≡ template_of_id id (state self.now).templates };

    /// Puts a template in its own place.
    fn put_template(&mut self, before: &Template, after: &Template)
        requires sound { is_sound self.old }
        requires gives { gives self.old before.now }
        requires names { IsTemplateUpdate before.now after.now }
        ensures state { state self.new ≡ record (state self.old) { templates = put_template after.now (state self.old).templates } }
        ensures sound { is_sound self.new }
        ensures gives { gives self.new after.now }
        ensures free { is_free self.old → is_free self.new }
        ensures serves { (d : Dest) → serves self.old d → serves self.new d }
        ensures room { has_room self.old → has_room self.new }
        ensures template_room { has_template_room self.old → has_template_room self.new }
        ensures record_room { record_room self.new ≡ record_room self.old };

    /// The template of the key leaves, if there is one, and this new one stands last.
    fn add_template(&mut self, t: &Template)
        requires sound { is_sound self.old }
        requires room { has_template_room self.old }
        requires id { t.now.id.0 ≡ (state self.old).next_template }
        ensures state { state self.new ≡ replace_template t.now (state self.old) }
        ensures sound { is_sound self.new }
        ensures free { is_free self.old → is_free self.new }
        ensures serves { (d : Dest) → serves self.old d → serves self.new d }
        ensures room { has_room self.old → has_room self.new }
        ensures record_room { record_room self.new ≡ record_room self.old };

    // ---- the entry of the item

    /// Puts the entry of the item in its own place: its names stay.
    fn put_entry(&mut self, before: &Entry, after: &Entry)
        requires sound { is_sound self.old }
        requires holds { holds self.old before.now }
        requires names { HaveSameNames before.now after.now }
        ensures state { state self.new ≡ record (state self.old) { entries = put_entry after.now (state self.old).entries } }
        ensures sound { is_sound self.new }
        ensures holds { holds self.new after.now }
        ensures room { has_room self.old → has_room self.new }
        ensures template_room { has_template_room self.old → has_template_room self.new }
        ensures record_room { record_room self.new ≡ record_room self.old };

    /// The entry of the item leaves, and its server's overload is looked at.
    fn end_entry(&mut self, e: &Entry)
        requires sound { is_sound self.old }
        requires holds { holds self.old e.now }
        ensures state { state self.new ≡ end_entry e.now (state self.old) }
        ensures sound { is_sound self.new }
        ensures free { is_free self.new }
        ensures room { has_room self.old → has_room self.new }
        ensures template_room { has_template_room self.old → has_template_room self.new }
        ensures record_room { record_room self.new ≡ record_room self.old };

    /// The entry of the item, which is unbound, is bound to a server.
    fn bind_entry(&mut self, e: &Entry, d: &Dest) -> Entry
        requires sound { is_sound self.old }
        requires holds { holds self.old e.now }
        requires serves { serves self.old d.now }
        requires unbound { e.now.server ≡ None }
        ensures bound { (result, state self.new) ≡ bind_entry (state self.old) e.now (Some d.now) }
        ensures sound { is_sound self.new }
        ensures holds { holds self.new result }
        ensures room { has_room self.old → has_room self.new }
        ensures template_room { has_template_room self.old → has_template_room self.new }
        ensures record_room { record_room self.new ≡ record_room self.old };

    /// A new entry comes last, and counts at its server.
    fn enter(&mut self, e: &Entry, d: &Dest)
        requires sound { is_sound self.old }
        requires free { is_free self.old }
        requires room { has_room self.old }
        requires serves { serves self.old d.now }
        requires server { e.now.server ≡ Some d.now.id }
        requires id { e.now.id ≡ (state self.old).next_entry }
        ensures state { state self.new ≡ entered e.now d.now.id (state self.old) }
        ensures sound { is_sound self.new }
        ensures record_room { record_room self.new ≡ record_room self.old };

    /// A new entry without a server comes last; it may be bound then.
    fn enter_unbound(&mut self, e: &Entry)
        requires sound { is_sound self.old }
        requires free { is_free self.old }
        requires room { has_room self.old }
        requires unbound { e.now.server ≡ None }
        requires id { e.now.id ≡ (state self.old).next_entry }
        ensures state { state self.new ≡ appended e.now (state self.old) }
        ensures sound { is_sound self.new }
        ensures holds { holds self.new e.now }
        ensures record_room { record_room self.new ≡ record_room self.old };

    /// The due entries of the bucket end. `due` has them all, in order of the list.
    fn end_due(&mut self, alloc: Global, bucket: u32, due: &[Entry]) -> Result<(), NoMemory>
        requires sound { is_sound self.old }
        requires free { is_free self.old }
        requires buckets { bucket < (state self.old).buckets }
        requires due { due.now ≡ filter (is_swept (state self.old) bucket) (state self.old).entries }
        ensures ok { OnOk result (state self.new ≡ (sweep (state self.old) bucket).1) }
        ensures err { OnErr result (state self.new ≡ state self.old) }
        ensures sound { is_sound self.new };

    /// Due templates leave or are held longer, and then the servers in the trash that nothing names
    /// are released.
    fn reap(&mut self, alloc: Global) -> Result<Reply, NoMemory>
        requires sound { is_sound self.old }
        requires now { (state self.old).now < 2 ^ 32 }
        ensures ok { IfOk result (λ r. (r, state self.new) ≡ reap (state self.old)) }
        ensures err { OnErr result (state self.new ≡ state self.old) }
        ensures sound { is_sound self.new };

    // ---- pending records

    /// A record waits to be sent.
    fn push_record(&mut self, r: SyncRecord)
        requires sound { is_sound self.old }
        requires room { 0 < record_room self.old }
        ensures state { state self.new ≡ record (state self.old) { pending = (state self.old).pending ++ r ∷ [] } }
        ensures sound { is_sound self.new }
        ensures holds { (e : Entry) → holds self.old e → holds self.new e }
        ensures rest { record_room self.new ≡ record_room self.old - 1 };

    /// The records that wait to be sent.
    fn pending(&self) -> &[SyncRecord]
        ensures { result.now ≡ (state self.now).pending };

    /// No record waits any longer.
    fn clear_pending(&mut self)
        requires sound { is_sound self.old }
        ensures state { state self.new ≡ record (state self.old) { pending = [] } }
        ensures sound { is_sound self.new };
}
