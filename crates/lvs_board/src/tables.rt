//! The desk as tables of the rules.
ghost use Rattle.std.specs.Prelude.{◌≡◌, ◌<◌, ◌^◌, true};
ghost use Rattle.lvs_board.specs.AtItems.{HasIds, MaySweep};

use crate::desk::Desk;
use crate::item::{AtItem, Home};
use lvs_rules::{Tables, View, Whole};
use lvs_types::{
    Addr, Candidate, Change, Cursor, Daemons, Dest, DestId, DestSpec, Entry, NoMemory, Proto,
    Reply, Service, ServiceKey, Settings, SyncRecord, Template, TemplateId, TemplateKey,
};
use std::alloc::Global;

/// No director draws so many ids: a step draws one of each at most, and there are fewer steps.
const LAST_ID: u64 = 1 << 62;

/// Whether the next ids of entries and of templates are far from the end.
fn has_ids(desk: &Desk) -> bool
    ensures { result ≡ true → HasIds desk.now }
{
    desk.next_entry < LAST_ID && desk.next_template < LAST_ID
}

/// Whether the bucket may be swept: the item is its sweep, and has changed nothing yet.
fn may_sweep(desk: &Desk, bucket: u32) -> bool
    ensures { result ≡ true → MaySweep desk.now bucket }
{
    match desk.sweep {
        Some(sweep) => {
            sweep.bucket == bucket && sweep.moment == desk.moment && desk.change == Change::Keep
        }
        None => false,
    }
}

impl<W: Whole, H: Home> Tables<AtItem<W, H>> for Desk {
    ghost use Rattle.lvs_board.specs.Desks.{state_of, Holds, IsFree, Serves, Gives};
    ghost use Rattle.lvs_board.specs.Rooms.{HasTemplateRoom, record_room};
    ghost use Rattle.lvs_board.specs.AtItems.{IsAtItem, HasEntryRoom};

    ghost state = { state_of W.whole };

    ghost is_sound = { IsAtItem W.whole H.home H.sweep };

    ghost holds = { Holds W.whole };

    ghost is_free = { λ d. IsFree d.change };

    ghost serves = { Serves };

    ghost gives = { Gives };

    ghost has_room = { HasEntryRoom };

    ghost has_template_room = { HasTemplateRoom };

    ghost record_room = { record_room };

    fn moment(&self) -> u64 {
        self.moment::<W>()
    }

    fn set_moment(&mut self, moment: u64) {
        self.set_moment::<W>(moment);
    }

    fn local(&self) -> Addr {
        self.local::<W>()
    }

    fn settings(&self) -> &Settings {
        self.settings::<W>()
    }

    fn set_settings(&mut self, settings: Settings) {
        self.set_settings::<W>(settings);
    }

    fn daemons(&self) -> Daemons {
        self.daemons::<W>()
    }

    fn set_daemons(&mut self, daemons: Daemons) {
        self.set_daemons::<W>(daemons);
    }

    fn next_entry(&self) -> u64 {
        self.next_entry::<W>()
    }

    fn next_template(&self) -> u64 {
        self.next_template::<W>()
    }

    fn make_room(&mut self) -> Result<(), NoMemory> {
        // No director gets there. To say so would put a bound of the ids into each contract of a rule.
        if !has_ids(self) {
            return Err(NoMemory);
        }
        self.make_room::<W>()
    }

    fn service(&self, key: ServiceKey) -> Option<Service> {
        self.service::<W>(key)
    }

    fn is_service(&self, key: ServiceKey) -> bool {
        self.is_service::<W>(key)
    }

    fn packet_service(&self, proto: Proto, addr: Addr, port: u16, mark: u32) -> Option<Service> {
        self.packet_service::<W>(proto, addr, port, mark)
    }

    fn add_service(&mut self, service: &Service) -> Result<(), NoMemory> {
        self.add_service::<W>(service)
    }

    fn edit_service(&mut self, service: &Service) {
        self.edit_service::<W>(service);
    }

    fn remove_service(&mut self, key: ServiceKey) {
        self.remove_service::<W>(key);
    }

    fn clear_services(&mut self) {
        self.clear_services::<W>();
    }

    fn set_cursor(&mut self, key: ServiceKey, cursor: Cursor) {
        self.set_cursor::<W>(key, cursor);
    }

    fn server(&self, id: DestId) -> Option<Dest> {
        self.server::<W>(id)
    }

    fn server_at(&self, key: ServiceKey, addr: Addr, port: u16) -> Option<Dest> {
        self.server_at::<W>(key, addr, port)
    }

    fn is_server(&self, key: ServiceKey, addr: Addr, port: u16) -> bool {
        self.is_server::<W>(key, addr, port)
    }

    fn server_for(&self, key: ServiceKey, daddr: Addr, dport: u16, vport: u16) -> Option<Dest> {
        self.server_for::<W>(key, daddr, dport, vport)
    }

    fn nth_server(&self, key: ServiceKey, place: usize) -> Option<Dest> {
        self.nth_server::<W>(key, place)
    }

    fn count_servers(&self) -> usize {
        self.count_servers::<W>()
    }

    fn list_candidates(&self, key: ServiceKey, view: &View, found: &mut Vec<Candidate>) {
        self.list_candidates::<W>(key, view, found);
    }

    fn list_addrs(&self, key: ServiceKey, addrs: &mut Vec<Addr>) {
        self.list_addrs::<W>(key, addrs);
    }

    fn count_others(&self, e: &Entry, id: DestId) -> u64 {
        self.count_others::<W>(e, id)
    }

    fn place_server(&mut self, key: ServiceKey, spec: &DestSpec) -> Result<(), NoMemory> {
        self.place_server::<W>(key, spec)
    }

    fn respecify_server(&mut self, key: ServiceKey, spec: &DestSpec) {
        self.respecify_server::<W>(key, spec);
    }

    fn remove_server(
        &mut self,
        _alloc: Global,
        key: ServiceKey,
        addr: Addr,
        port: u16,
        d: &Dest,
    ) -> Result<(), NoMemory> {
        self.remove_server::<W>(key, addr, port, d);
        Ok(())
    }

    fn remove_servers_of(&mut self, _alloc: Global, key: ServiceKey) -> Result<(), NoMemory> {
        self.remove_servers_of::<W>(key);
        Ok(())
    }

    fn remove_all_servers(&mut self, alloc: Global) -> Result<(), NoMemory> {
        self.remove_all_servers::<W>(alloc)
    }

    fn template(&self, key: &TemplateKey) -> Option<Template> {
        self.template::<W>(key)
    }

    fn template_of(&self, id: TemplateId) -> Option<Template> {
        self.template_of::<W>(id)
    }

    fn put_template(&mut self, before: &Template, after: &Template) {
        self.put_template::<W>(before, after);
    }

    fn add_template(&mut self, t: &Template) {
        self.add_template::<W>(t);
    }

    #[tactic(auto, using(crate::proofs::AtItems::at_held))]
    fn put_entry(&mut self, before: &Entry, after: &Entry) {
        self.put::<W>(before, after);
    }

    fn end_entry(&mut self, e: &Entry) {
        self.end::<W>(e);
    }

    fn bind_entry(&mut self, e: &Entry, d: &Dest) -> Entry {
        self.bind::<W>(e, d)
    }

    fn enter(&mut self, e: &Entry, d: &Dest) {
        self.enter_bound::<W>(e, d);
    }

    fn enter_unbound(&mut self, e: &Entry) {
        self.enter_free::<W>(e);
    }

    fn end_due(&mut self, _alloc: Global, bucket: u32, due: &[Entry]) -> Result<(), NoMemory> {
        // Never so: the one rule that ends due entries is that of the sweep, and it changes nothing before.
        if !may_sweep(self, bucket) {
            return Err(NoMemory);
        }
        self.end_due::<W>(bucket, due);
        Ok(())
    }

    fn reap(&mut self, alloc: Global) -> Result<Reply, NoMemory> {
        self.reap::<W>(alloc)
    }

    fn push_record(&mut self, r: SyncRecord) {
        self.push_record::<W>(r);
    }

    fn pending(&self) -> &[SyncRecord] {
        self.pending::<W>()
    }

    fn clear_pending(&mut self) {
        self.clear_pending::<W>();
    }
}
