//! A record of a sync message arrives.
ghost use Rattle.std.specs.Prelude.{◌≡◌, ◌<◌, ◌≤◌, ◌^◌, true, false, None, IfOk, OnErr, IfSome, IfNone};
ghost use Rattle.lvs_rules.specs.Bounds.{HasHeadroom};
ghost use Rattle.lvs_model.specs.SyncRules.{is_template_record};
ghost use Rattle.lvs_model.specs.Lookups.{entry_at};
ghost use Rattle.lvs_model.specs.Buckets.{key_of_learnt, recorded_in};
ghost use Rattle.lvs_types.specs.declared.dest.Dest.{Dest};
ghost use Rattle.lvs_rules.specs.Finds.{IsRecordFound};
ghost use Rattle.lvs_rules.specs.Changes.{IsTemplateUpdate, HaveSameNames};
ghost use Rattle.lvs_model.specs.Learning.{learnt_timeout, recorded_proto, recorded_method, recorded_state, recorded_key, recorded_entry, add_entry, relearnt, goes_to_recorded, relearn, learn_connection, recorded_template_key, recorded_template, add_template, relearnt_template, template_goes_to_recorded, relearn_template, learn_template, learn_record, learn_item, learn_by, learn};

use crate::binding::{rebind, tried};
use crate::tables::{Tables, Whole};
use lvs_sync_rules::accept;
use lvs_types::{
    Entry, Key, Learnt, Method, NoMemory, Proto, Reply, SyncItem, SyncRecord, TcpState, Template,
    TemplateId, TemplateKey,
};

fn timeout_in(r: &SyncRecord) -> u32
    ensures { result ≡ learnt_timeout r.now }
{
    if r.timeout == 0 { 180 } else { r.timeout }
}

fn proto_in(r: &SyncRecord) -> Proto
    ensures { result ≡ recorded_proto r.now }
{
    if r.code == 6 { Proto::Tcp } else { Proto::Udp }
}

fn method_in(r: &SyncRecord) -> Method
    ensures { result ≡ recorded_method r.now }
{
    Method::of_code(r.flags % 8).unwrap_or(Method::Direct)
}

fn state_in(proto: Proto, number: u16) -> Option<TcpState>
    ensures { result ≡ recorded_state proto number }
{
    match proto {
        Proto::Udp => None,
        Proto::Tcp => TcpState::of_number(number),
    }
}

/// The key as it is recorded.
pub fn key_in_record(r: &SyncRecord) -> Key
    ensures { result ≡ recorded_key r.now }
{
    Key {
        proto: proto_in(r),
        caddr: r.caddr,
        cport: r.cport,
        vaddr: r.vaddr,
        vport: r.vport,
    }
}

fn entry_in<W: Whole, T: Tables<W>>(tables: &T, r: &SyncRecord) -> Entry
    requires { (T.state tables.now).now < 2 ^ 32 }
    ensures { result ≡ recorded_entry (T.state tables.now) r.now }
{
    Entry {
        id: tables.next_entry(),
        key: key_in_record(r),
        server: None,
        method: method_in(r),
        daddr: r.daddr,
        dport: r.dport,
        state: state_in(proto_in(r), r.state),
        timeout: timeout_in(r),
        deadline: tables.moment() + u64::from(timeout_in(r)),
        packets: 0,
        template: None,
        mark: r.mark,
    }
}

/// The recorded entry stands last, and is bound where a server is found for it.
fn add_entry<W: Whole, T: Tables<W>>(tables: &mut T, r: &SyncRecord)
    requires sound { T.is_sound tables.old }
    requires free { T.is_free tables.old }
    requires now { (T.state tables.old).now < 2 ^ 32 }
    requires room { T.has_room tables.old }
    ensures next { T.state tables.new ≡ add_entry (T.state tables.old) (recorded_entry (T.state tables.old) r.now) }
    ensures sound { T.is_sound tables.new }
{
    let e = entry_in(tables, r);
    tables.enter_unbound(&e);
    rebind(tables, e);
}

fn with_record<W: Whole, T: Tables<W>>(tables: &T, r: &SyncRecord, e: &Entry) -> Entry
    requires { (T.state tables.now).now < 2 ^ 32 }
    ensures { result ≡ relearnt (T.state tables.now) r.now e.now }
{
    Entry {
        state: state_in(proto_in(r), r.state),
        timeout: timeout_in(r),
        deadline: tables.moment() + u64::from(timeout_in(r)),
        ..*e
    }
}

fn goes_there(r: &SyncRecord, e: &Entry) -> bool
    ensures { result ≡ goes_to_recorded r.now e.now }
{
    e.daddr == r.daddr && e.dport == r.dport
}

/// The entry of the key goes to the recorded address and port.
fn renew_entry<W: Whole, T: Tables<W>>(tables: &mut T, r: &SyncRecord, e: &Entry)
    requires sound { T.is_sound tables.old }
    requires holds { T.holds tables.old e.now }
    requires now { (T.state tables.old).now < 2 ^ 32 }
    ensures next { T.state tables.new ≡ relearn (T.state tables.old) r.now e.now true }
    ensures sound { T.is_sound tables.new }
{
    let after = with_record(tables, r, e);
    tables.put_entry(e, &after);
    rebind(tables, after);
}

/// A new entry takes the place of one that goes elsewhere.
fn replace_entry<W: Whole, T: Tables<W>>(tables: &mut T, r: &SyncRecord, e: &Entry)
    requires sound { T.is_sound tables.old }
    requires holds { T.holds tables.old e.now }
    requires now { (T.state tables.old).now < 2 ^ 32 }
    requires room { T.has_room tables.old }
    ensures next { T.state tables.new ≡ relearn (T.state tables.old) r.now e.now false }
    ensures sound { T.is_sound tables.new }
{
    tables.end_entry(e);
    add_entry(tables, r);
}

/// The entry of the key goes to the recorded address and port, or to another.
fn relearn<W: Whole, T: Tables<W>>(tables: &mut T, r: &SyncRecord, e: &Entry)
    requires sound { T.is_sound tables.old }
    requires holds { T.holds tables.old e.now }
    requires now { (T.state tables.old).now < 2 ^ 32 }
    requires room { T.has_room tables.old }
    ensures next { T.state tables.new ≡ relearn (T.state tables.old) r.now e.now (goes_to_recorded r.now e.now) }
    ensures sound { T.is_sound tables.new }
{
    if goes_there(r, e) {
        renew_entry(tables, r, e);
    } else {
        replace_entry(tables, r, e);
    }
}

fn learn_connection<W: Whole, T: Tables<W>>(tables: &mut T, r: &SyncRecord, e: Option<Entry>)
    requires sound { T.is_sound tables.old }
    requires holds { IfSome e (T.holds tables.old) }
    requires free { IfNone e (T.is_free tables.old) }
    requires now { (T.state tables.old).now < 2 ^ 32 }
    requires room { T.has_room tables.old }
    ensures next { T.state tables.new ≡ learn_connection (T.state tables.old) r.now e }
    ensures sound { T.is_sound tables.new }
{
    match e {
        None => add_entry(tables, r),
        Some(e) => relearn(tables, r, &e),
    }
}

fn template_key_in(r: &SyncRecord) -> TemplateKey
    ensures { result ≡ recorded_template_key r.now }
{
    TemplateKey {
        code: r.code,
        client: r.caddr,
        vaddr: r.vaddr,
        vport: r.vport,
    }
}

fn template_in<W: Whole, T: Tables<W>>(tables: &T, r: &SyncRecord) -> Template
    requires { (T.state tables.now).now < 2 ^ 32 }
    ensures { result ≡ recorded_template (T.state tables.now) r.now }
{
    Template {
        id: TemplateId(tables.next_template()),
        key: template_key_in(r),
        server: None,
        method: method_in(r),
        daddr: r.daddr,
        dport: r.dport,
        timeout: timeout_in(r),
        deadline: tables.moment() + u64::from(timeout_in(r)),
    }
}

/// The template of the key leaves, if there is one; the recorded one stands last, bound where a
/// server is found for it.
fn add_template<W: Whole, T: Tables<W>>(tables: &mut T, r: &SyncRecord)
    requires sound { T.is_sound tables.old }
    requires now { (T.state tables.old).now < 2 ^ 32 }
    requires template_room { T.has_template_room tables.old }
    ensures next { T.state tables.new ≡ add_template (T.state tables.old) (recorded_template (T.state tables.old) r.now) }
    ensures sound { T.is_sound tables.new }
{
    let t = template_in(tables, r);
    let t = tried(tables, t);
    tables.add_template(&t);
}

fn with_template_record<W: Whole, T: Tables<W>>(
    tables: &T,
    r: &SyncRecord,
    t: &Template,
) -> Template
    requires { (T.state tables.now).now < 2 ^ 32 }
    ensures { result ≡ relearnt_template (T.state tables.now) r.now t.now }
{
    Template {
        timeout: timeout_in(r),
        deadline: tables.moment() + u64::from(timeout_in(r)),
        ..*t
    }
}

fn template_goes_there(r: &SyncRecord, t: &Template) -> bool
    ensures { result ≡ template_goes_to_recorded r.now t.now }
{
    t.daddr == r.daddr && t.dport == r.dport
}

fn renew_template<W: Whole, T: Tables<W>>(tables: &mut T, r: &SyncRecord, t: &Template)
    requires sound { T.is_sound tables.old }
    requires gives { T.gives tables.old t.now }
    requires now { (T.state tables.old).now < 2 ^ 32 }
    ensures next { T.state tables.new ≡ relearn_template (T.state tables.old) r.now t.now true }
    ensures sound { T.is_sound tables.new }
{
    let renewed = with_template_record(tables, r, t);
    let after = tried(tables, renewed);
    tables.put_template(t, &after);
}

fn relearn_template<W: Whole, T: Tables<W>>(tables: &mut T, r: &SyncRecord, t: &Template)
    requires sound { T.is_sound tables.old }
    requires gives { T.gives tables.old t.now }
    requires now { (T.state tables.old).now < 2 ^ 32 }
    requires template_room { T.has_template_room tables.old }
    ensures next { T.state tables.new ≡ relearn_template (T.state tables.old) r.now t.now (template_goes_to_recorded r.now t.now) }
    ensures sound { T.is_sound tables.new }
{
    if template_goes_there(r, t) {
        renew_template(tables, r, t);
    } else {
        add_template(tables, r);
    }
}

fn learn_template<W: Whole, T: Tables<W>>(tables: &mut T, r: &SyncRecord, t: Option<Template>)
    requires sound { T.is_sound tables.old }
    requires gives { IfSome t (T.gives tables.old) }
    requires now { (T.state tables.old).now < 2 ^ 32 }
    requires template_room { T.has_template_room tables.old }
    ensures next { T.state tables.new ≡ learn_template (T.state tables.old) r.now t }
    ensures sound { T.is_sound tables.new }
{
    match t {
        None => add_template(tables, r),
        Some(t) => relearn_template(tables, r, &t),
    }
}

/// Whether it is the record of a template.
pub fn is_of_template(r: &SyncRecord) -> bool
    ensures { result ≡ is_template_record r.now }
{
    r.flags & 0x1000 != 0
}

fn learn_record<W: Whole, T: Tables<W>>(tables: &mut T, r: &SyncRecord, found: Option<Entry>)
    requires sound { T.is_sound tables.old }
    requires found { is_template_record r.now ≡ false → found ≡ entry_at (recorded_key r.now) (T.state tables.old).entries }
    requires holds { IfSome found (T.holds tables.old) }
    requires free { IfNone found (T.is_free tables.old) }
    requires now { (T.state tables.old).now < 2 ^ 32 }
    requires room { T.has_room tables.old }
    requires template_room { T.has_template_room tables.old }
    ensures next { T.state tables.new ≡ learn_record (T.state tables.old) r.now }
    ensures sound { T.is_sound tables.new }
{
    if is_of_template(r) {
        let t = tables.template(&template_key_in(r));
        learn_template(tables, r, t);
    } else {
        learn_connection(tables, r, found);
    }
}

fn learn_item<W: Whole, T: Tables<W>>(tables: &mut T, item: &SyncItem, found: Option<Entry>)
    requires sound { T.is_sound tables.old }
    requires found { IsRecordFound item.now found (T.state tables.old).entries }
    requires holds { IfSome found (T.holds tables.old) }
    requires free { IfNone found (T.is_free tables.old) }
    requires now { (T.state tables.old).now < 2 ^ 32 }
    requires room { T.has_room tables.old }
    requires template_room { T.has_template_room tables.old }
    ensures next { T.state tables.new ≡ learn_item (T.state tables.old) item.now }
    ensures sound { T.is_sound tables.new }
{
    match item {
        SyncItem::V6 => {}
        SyncItem::V4(r) => learn_record(tables, r, found),
    }
}

/// A record of a message with a sync id is learnt, or refused. `found` is the entry of its key.
#[tactic(auto, using(crate::proofs::Records::accepted_found))]
pub(crate) fn learn<W: Whole, T: Tables<W>>(
    tables: &mut T,
    sync_id: u8,
    item: &SyncItem,
    found: Option<Entry>,
) -> Result<Reply, NoMemory>
    requires sound { T.is_sound tables.old }
    requires found { found ≡ recorded_in (T.state tables.old).entries (key_of_learnt item.now) }
    requires holds { IfSome found (T.holds tables.old) }
    requires free { IfNone found (T.is_free tables.old) }
    requires room { HasHeadroom (T.state tables.old) }
    ensures ok { IfOk result (λ r. (r, T.state tables.new) ≡ learn (T.state tables.old) sync_id item.now) }
    ensures err { OnErr result (T.state tables.new ≡ T.state tables.old) }
    ensures sound { T.is_sound tables.new }
{
    let answer = accept(tables.daemons().backup, sync_id, item);
    if answer == Learnt::Accepted {
        tables.make_room()?;
        learn_item(tables, item, found);
    }
    Ok(Reply::Learnt(answer))
}
