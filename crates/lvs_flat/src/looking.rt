//! What an item finds among the entries.
ghost use Rattle.std.specs.Prelude.{◌≡◌, ◌<◌, IfOk};
ghost use Rattle.std.specs.List.{filter};
ghost use Rattle.lvs_types.specs.declared.bucket.Found.{Found};
ghost use Rattle.lvs_types.specs.declared.item.Item.{Item};
ghost use Rattle.lvs_model.specs.Reading.{read};
ghost use Rattle.lvs_model.specs.Buckets.{head_read, incoming_in, outgoing_in, recorded_in, key_of_learnt, key_of_proto, one_or_nothing, look_up, look_in};
ghost use Rattle.lvs_model.specs.Clock.{is_swept};
ghost use Rattle.lvs_flat.specs.Lists.{state_of};

use crate::clock::list_due;
use crate::entries::find_key;
use crate::lists::Lists;
use lvs_headers::read_packet;
use lvs_keys::{ReplySides, find_reply, key_of_packet};
use lvs_rules::{is_of_template, key_in_record};
use lvs_types::{Entry, Found, Head, Item, Listed, NoMemory, Proto, SyncItem, SyncRecord};
use std::alloc::Global;

/// An incoming packet finds the entry of its key.
fn find_incoming(entries: &[Entry], bytes: &[u8]) -> Option<Entry>
    ensures { result ≡ incoming_in entries.now (head_read (read bytes.now)) }
{
    let packet = match read_packet(bytes) {
        Err(_) => return None,
        Ok(packet) => packet,
    };
    let head = packet.head();
    match head.transport() {
        None => None,
        Some(proto) => find_key(entries, &key_of_packet(proto, &head)),
    }
}

fn sides_of(proto: Proto, head: &Head) -> ReplySides
    ensures { result ≡ record { proto = proto; daddr = head.now.src; dport = head.now.sport; caddr = head.now.dst; cport = head.now.dport } }
{
    ReplySides {
        proto,
        daddr: head.src,
        dport: head.sport,
        caddr: head.dst,
        cport: head.dport,
    }
}

/// An outgoing packet finds the entry of its reply tuple.
fn find_outgoing(entries: &[Entry], bytes: &[u8]) -> Option<Entry>
    ensures { result ≡ outgoing_in entries.now (head_read (read bytes.now)) }
{
    let packet = match read_packet(bytes) {
        Err(_) => return None,
        Ok(packet) => packet,
    };
    let head = packet.head();
    match head.transport() {
        None => None,
        Some(proto) => find_reply(entries, &sides_of(proto, &head)).copied(),
    }
}

fn find_recorded(entries: &[Entry], r: &SyncRecord, proto: Option<Proto>) -> Option<Entry>
    ensures { result ≡ recorded_in entries.now (key_of_proto r.now proto) }
{
    match proto {
        None => None,
        Some(_) => find_key(entries, &key_in_record(r)),
    }
}

/// A connection's record finds the entry of its key.
fn find_learnt(entries: &[Entry], item: &SyncItem) -> Option<Entry>
    ensures { result ≡ recorded_in entries.now (key_of_learnt item.now) }
{
    match item {
        SyncItem::V6 => None,
        SyncItem::V4(r) => {
            if is_of_template(r) {
                None
            } else {
                find_recorded(entries, r, Proto::of_code(r.code))
            }
        }
    }
}

fn one_or_nothing(entry: Option<Entry>) -> Found
    ensures { result ≡ one_or_nothing entry }
{
    match entry {
        None => Found::Nothing,
        Some(e) => Found::One(e),
    }
}

/// The due entries of a bucket that there is.
fn find_due_in(alloc: Global, lists: &Lists, bucket: u32) -> Result<Found, NoMemory>
    requires { bucket < lists.now.buckets }
    ensures { IfOk result (λ found. found ≡ look_up (state_of lists.now) (Item.Sweep bucket)) }
{
    let due = list_due(alloc, lists, bucket)?;
    Ok(Found::Due(Listed::from_vec(due)))
}

/// A sweep finds all due entries of its bucket, if there is one.
#[tactic(auto, using(crate::proofs::Swept::swept_nowhere))]
fn find_due(alloc: Global, lists: &Lists, bucket: u32) -> Result<Found, NoMemory>
    requires { 0 < lists.now.buckets }
    ensures { IfOk result (λ found. found ≡ look_up (state_of lists.now) (Item.Sweep bucket)) }
{
    if bucket >= lists.buckets {
        return Ok(Found::Nothing);
    }
    find_due_in(alloc, lists, bucket)
}

/// What the item finds in its bucket.
pub(crate) fn look_up(alloc: Global, lists: &Lists, item: &Item) -> Result<Found, NoMemory>
    requires { 0 < lists.now.buckets }
    ensures { IfOk result (λ found. found ≡ look_up (state_of lists.now) item.now) }
{
    match item {
        Item::Incoming { bytes, .. } => {
            Ok(one_or_nothing(find_incoming(&lists.entries, bytes.as_slice())))
        }
        Item::Outgoing { bytes } => {
            Ok(one_or_nothing(find_outgoing(&lists.entries, bytes.as_slice())))
        }
        Item::Learn { item, .. } => Ok(one_or_nothing(find_learnt(&lists.entries, item))),
        Item::Sweep(bucket) => find_due(alloc, lists, *bucket),
        Item::Edit(_) => Ok(Found::Nothing),
        Item::Set(_) => Ok(Found::Nothing),
        Item::BadSync(_) => Ok(Found::Nothing),
        Item::Tick(_) => Ok(Found::Nothing),
        Item::Reap => Ok(Found::Nothing),
        Item::SendSync => Ok(Found::Nothing),
    }
}
