//! Lists as tables of the rules.
ghost use Rattle.std.specs.Prelude.{◌≡◌, ◌-◌, vec_len, vec_capacity};
ghost use Rattle.lvs_model.specs.Edits.{with_fresh_cursor};

use crate::clock::{end_due, reap};
use crate::dests::{
    find_at, find_nth, find_serving, get_dest, is_there, list_addrs, list_candidates, note_bound,
    note_ended,
};
use crate::entries::{count_others, put, remove};
use crate::lists::Lists;
use crate::placing::{place, respecify_at, step_back_from};
use crate::removal::{keep_after_clear, keep_after_server, keep_after_service};
use crate::services::{
    find_key as find_service, find_packet_service, is_service, remove as remove_service, replace,
    set_cursor,
};
use crate::templates::{
    find_key as find_template, get_template, put as put_template, remove as remove_template,
};
use lvs_rules::{Tables, View, Whole, bound};
use lvs_types::{
    Addr, Candidate, Cursor, Daemons, Dest, DestId, DestSpec, Entry, NoMemory, Proto, Reply,
    Service, ServiceKey, Settings, SyncRecord, Template, TemplateId, TemplateKey,
};
use std::alloc::Global;

/// The service with a cursor that begins anew.
fn with_fresh_cursor(service: &Service) -> Service
    ensures { result ≡ with_fresh_cursor service.now }
{
    Service {
        cursor: Cursor { last: None, cw: 0 },
        ..*service
    }
}

impl<W: Whole> Tables<W> for Lists {
    ghost use Rattle.lvs_flat.specs.Lists.{state_of, HasEntryRoom, HasTemplateRoom};

    ghost state = { state_of };

    ghost is_sound = { λ _. Unit {0} };

    ghost holds = { λ _ _. Unit {0} };

    ghost is_free = { λ _. Unit {0} };

    ghost serves = { λ _ _. Unit {0} };

    ghost gives = { λ _ _. Unit {0} };

    ghost has_room = { HasEntryRoom };

    ghost has_template_room = { HasTemplateRoom };

    ghost record_room = { λ t. vec_capacity t.pending - vec_len t.pending };

    fn moment(&self) -> u64 {
        self.moment
    }

    fn set_moment(&mut self, moment: u64) {
        self.moment = moment;
    }

    fn local(&self) -> Addr {
        self.local
    }

    fn settings(&self) -> &Settings {
        &self.settings
    }

    fn set_settings(&mut self, settings: Settings) {
        self.settings = settings;
    }

    fn daemons(&self) -> Daemons {
        self.daemons
    }

    fn set_daemons(&mut self, daemons: Daemons) {
        self.daemons = daemons;
    }

    fn next_entry(&self) -> u64 {
        self.next_entry
    }

    fn next_template(&self) -> u64 {
        self.next_template
    }

    fn make_room(&mut self) -> Result<(), NoMemory> {
        self.entries.reserve(1)?;
        self.templates.reserve(1)?;
        self.pending.reserve(2)?;
        Ok(())
    }

    fn service(&self, key: ServiceKey) -> Option<Service> {
        find_service(&self.services, key)
    }

    fn is_service(&self, key: ServiceKey) -> bool {
        is_service(&self.services, key)
    }

    fn packet_service(&self, proto: Proto, addr: Addr, port: u16, mark: u32) -> Option<Service> {
        find_packet_service(&self.services, proto, addr, port, mark)
    }

    fn add_service(&mut self, service: &Service) -> Result<(), NoMemory> {
        self.services.push(with_fresh_cursor(service))?;
        Ok(())
    }

    fn edit_service(&mut self, service: &Service) {
        replace(&mut self.services, with_fresh_cursor(service));
    }

    fn remove_service(&mut self, key: ServiceKey) {
        remove_service(&mut self.services, key);
    }

    fn clear_services(&mut self) {
        self.services.clear();
    }

    fn set_cursor(&mut self, key: ServiceKey, cursor: Cursor) {
        set_cursor(&mut self.services, key, cursor);
    }

    fn server(&self, id: DestId) -> Option<Dest> {
        get_dest(&self.dests, id)
    }

    fn server_at(&self, key: ServiceKey, addr: Addr, port: u16) -> Option<Dest> {
        find_at(&self.dests, key, addr, port)
    }

    fn is_server(&self, key: ServiceKey, addr: Addr, port: u16) -> bool {
        is_there(&self.dests, key, addr, port)
    }

    fn server_for(&self, key: ServiceKey, daddr: Addr, dport: u16, vport: u16) -> Option<Dest> {
        find_serving(&self.dests, key, daddr, dport, vport)
    }

    fn nth_server(&self, key: ServiceKey, place: usize) -> Option<Dest> {
        find_nth(&self.dests, key, place)
    }

    fn count_servers(&self) -> usize {
        self.dests.len()
    }

    fn list_candidates(&self, key: ServiceKey, view: &View, found: &mut Vec<Candidate>) {
        list_candidates(found, &self.dests, &self.entries, key, view);
    }

    fn list_addrs(&self, key: ServiceKey, addrs: &mut Vec<Addr>) {
        list_addrs(addrs, &self.dests, key);
    }

    fn count_others(&self, e: &Entry, id: DestId) -> u64 {
        count_others(&self.entries, e.id, id)
    }

    fn place_server(&mut self, key: ServiceKey, spec: &DestSpec) -> Result<(), NoMemory> {
        place(self, key, spec)
    }

    fn respecify_server(&mut self, key: ServiceKey, spec: &DestSpec) {
        respecify_at(&mut self.dests, &self.entries, key, spec);
    }

    fn remove_server(
        &mut self,
        alloc: Global,
        key: ServiceKey,
        addr: Addr,
        port: u16,
        d: &Dest,
    ) -> Result<(), NoMemory> {
        let dests = keep_after_server(alloc, self, d.id)?;
        step_back_from(&mut self.services, &self.dests, key, d.id);
        self.dests = dests;
        Ok(())
    }

    fn remove_servers_of(&mut self, alloc: Global, key: ServiceKey) -> Result<(), NoMemory> {
        let dests = keep_after_service(alloc, self, key)?;
        self.dests = dests;
        Ok(())
    }

    fn remove_all_servers(&mut self, alloc: Global) -> Result<(), NoMemory> {
        let dests = keep_after_clear(alloc, self)?;
        self.dests = dests;
        Ok(())
    }

    fn template(&self, key: &TemplateKey) -> Option<Template> {
        find_template(&self.templates, key)
    }

    fn template_of(&self, id: TemplateId) -> Option<Template> {
        get_template(&self.templates, id)
    }

    fn put_template(&mut self, before: &Template, after: &Template) {
        put_template(&mut self.templates, *after);
    }

    fn add_template(&mut self, t: &Template) {
        remove_template(&mut self.templates, &t.key);
        self.templates.push_reserved(*t);
        self.next_template += 1;
    }

    fn put_entry(&mut self, before: &Entry, after: &Entry) {
        put(&mut self.entries, *after);
    }

    fn end_entry(&mut self, e: &Entry) {
        remove(&mut self.entries, e.id);
        note_ended(&mut self.dests, &self.entries, e.server);
    }

    fn bind_entry(&mut self, e: &Entry, d: &Dest) -> Entry {
        let e = bound(e, d);
        put(&mut self.entries, e);
        note_bound(&mut self.dests, &self.entries, d.id);
        e
    }

    fn enter(&mut self, e: &Entry, d: &Dest) {
        self.entries.push_reserved(*e);
        note_bound(&mut self.dests, &self.entries, d.id);
        self.next_entry += 1;
    }

    fn enter_unbound(&mut self, e: &Entry) {
        self.entries.push_reserved(*e);
        self.next_entry += 1;
    }

    fn end_due(&mut self, alloc: Global, bucket: u32, due: &[Entry]) -> Result<(), NoMemory> {
        end_due(alloc, self, bucket, due)
    }

    fn reap(&mut self, alloc: Global) -> Result<Reply, NoMemory> {
        reap(alloc, self)
    }

    fn push_record(&mut self, r: SyncRecord) {
        self.pending.push_reserved(r);
    }

    fn pending(&self) -> &[SyncRecord] {
        &self.pending
    }

    fn clear_pending(&mut self) {
        self.pending.clear();
    }
}
