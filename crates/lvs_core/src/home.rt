//! The bucket that an item is of.
ghost use Rattle.std.specs.Prelude.{◌≡◌, ◌<◌, None, IfSome};
ghost use Rattle.lvs_types.specs.declared.item.Item.TheVariants as item;
ghost use Rattle.lvs_types.specs.Transport.{transport_of};
ghost use Rattle.lvs_model.specs.Buckets.{head_of_item, head_read, home, incoming_bucket, outgoing_bucket, source_bucket, destination_bucket, key_of_learnt, key_of_record, record_bucket};
ghost use Rattle.lvs_model.specs.Reading.{read};
ghost use Rattle.lvs_model.specs.SyncRules.{is_template_record};

use lvs_headers::read_packet;
use lvs_model::bucket_of;
use lvs_types::{Head, Item, Proto, SyncItem, SyncRecord};

/// The flag of a template's record.
const TEMPLATE: u32 = 0x1000;

/// What the headers of an item's packet say, and the item's bucket: none where it has none.
#[derive(Drop)]
pub struct Home {
    /// None where the item is no packet, or its headers can't be read.
    pub head: Option<Head>,
    /// Below the number of buckets.
    pub bucket: Option<u32>,
}

/// What the headers of a packet say: none where it can't be read.
fn read_head(bytes: &[u8]) -> Option<Head>
    ensures { result ≡ head_read (read bytes.now) }
{
    match read_packet(bytes) {
        Ok(packet) => Some(packet.head()),
        Err(_) => None,
    }
}

/// The bucket of an incoming packet: its source is the client.
fn find_source(head: &Head, buckets: u32) -> Option<u32>
    requires { 0 < buckets }
    ensures { result ≡ source_bucket buckets head.now (transport_of head.now) }
{
    let proto = head.transport()?;
    Some(bucket_of(proto.code(), head.src, head.sport, buckets))
}

/// The bucket of an outgoing packet: its destination is the client.
fn find_destination(head: &Head, buckets: u32) -> Option<u32>
    requires { 0 < buckets }
    ensures { result ≡ destination_bucket buckets head.now (transport_of head.now) }
{
    let proto = head.transport()?;
    Some(bucket_of(proto.code(), head.dst, head.dport, buckets))
}

fn is_template(arrived: &SyncRecord) -> bool
    ensures { result ≡ is_template_record arrived.now }
{
    arrived.flags & TEMPLATE != 0
}

/// The bucket of a connection's record: none where it is a template's, or of another protocol.
fn find_recorded(arrived: &SyncRecord, buckets: u32) -> Option<u32>
    requires { 0 < buckets }
    ensures { result ≡ record_bucket buckets (key_of_record arrived.now) }
{
    if is_template(arrived) {
        return None;
    }
    let proto = Proto::of_code(arrived.code)?;
    Some(bucket_of(proto.code(), arrived.caddr, arrived.cport, buckets))
}

fn find_learnt(item: &SyncItem, buckets: u32) -> Option<u32>
    requires { 0 < buckets }
    ensures { result ≡ record_bucket buckets (key_of_learnt item.now) }
{
    match item {
        SyncItem::V4(arrived) => find_recorded(arrived, buckets),
        SyncItem::V6 => None,
    }
}

/// The head of an incoming packet, and its bucket.
fn place_incoming(bytes: &[u8], buckets: u32) -> Home
    requires { 0 < buckets }
    ensures head { result.head ≡ head_read (read bytes.now) }
    ensures bucket { result.bucket ≡ incoming_bucket buckets (head_read (read bytes.now)) }
{
    match read_head(bytes) {
        Some(head) => Home {
            head: Some(head),
            bucket: find_source(&head, buckets),
        },
        None => place_in(None),
    }
}

/// The head of an outgoing packet, and its bucket.
fn place_outgoing(bytes: &[u8], buckets: u32) -> Home
    requires { 0 < buckets }
    ensures head { result.head ≡ head_read (read bytes.now) }
    ensures bucket { result.bucket ≡ outgoing_bucket buckets (head_read (read bytes.now)) }
{
    match read_head(bytes) {
        Some(head) => Home {
            head: Some(head),
            bucket: find_destination(&head, buckets),
        },
        None => place_in(None),
    }
}

/// The bucket without a head.
fn place_in(bucket: Option<u32>) -> Home
    ensures head { result.head ≡ None }
    ensures bucket { result.bucket ≡ bucket }
{
    Home { head: None, bucket }
}

fn find_swept(bucket: u32, buckets: u32) -> Option<u32>
    ensures { result ≡ home buckets (item.Sweep bucket) }
{
    if bucket < buckets { Some(bucket) } else { None }
}

/// What an item's headers say, and its bucket, of so many.
pub fn place(item: &Item, buckets: u32) -> Home
    requires { 0 < buckets }
    ensures head { result.head ≡ head_of_item item.now }
    ensures bucket { result.bucket ≡ home buckets item.now }
    ensures below { IfSome result.bucket (λ bucket. bucket < buckets) }
{
    match item {
        Item::Incoming { bytes, .. } => place_incoming(bytes.as_slice(), buckets),
        Item::Outgoing { bytes } => place_outgoing(bytes.as_slice(), buckets),
        Item::Learn { item, .. } => place_in(find_learnt(item, buckets)),
        Item::Sweep(bucket) => place_in(find_swept(*bucket, buckets)),
        Item::Edit(_)
        | Item::Set(_)
        | Item::BadSync(_)
        | Item::Tick(_)
        | Item::Reap
        | Item::SendSync => place_in(None),
    }
}
