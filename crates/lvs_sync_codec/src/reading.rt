//! Reading sync messages.
//!
//! ```text
//! version 1  0 reserved, 0           version 0  0 number of records, above 0
//!            1 sync id                          1 sync id
//!            2 size of the message              2 size of the message
//!            4 number of records                4 the records
//!            5 version, 1
//!            6 spare, 0
//!            8 the records
//! ```
ghost use Rattle.std.specs.Prelude.{◌≡◌, ◌≤◌, ◌==◌, length, MatchResult, Ok, Err};
ghost use Rattle.lvs_model.specs.Fields.{word_at};
ghost use Rattle.lvs_model.specs.MessageReading.{records_by, read_new_message, read_old_message, read_sync};
ghost use Rattle.lvs_sync_codec.specs.Codec.{reader, IsRefusal};

use crate::fields::{rest_from, word};
use crate::refused::MessageRefused;
use crate::version::Version;
use lvs_types::{BadSync, Listed, Message, SyncItem};
use std::alloc::Global;

const NEW_HEADER: usize = 8;

const NEW_COUNT: usize = 4;

const NEW_VERSION: usize = 5;

const NEW_SPARE: usize = 6;

const OLD_HEADER: usize = 4;

const OLD_COUNT: usize = 0;

/// The sync id of either version.
const SYNC_ID: usize = 1;

/// The size of either version.
const SIZE: usize = 2;

/// Reads a sync message of version 1, or of version 0 where its first byte isn't 0.
///
/// It is refused for the first cause that is met: `Short`, `Version` and `Size` of its header, then
/// `Count`, `RecordShort`, `RecordVersion` and `Options` record by record, and `Count` for bytes
/// after the last record and its padding. The layout of version 1 is that of Linux IPVS.
pub fn read_message(alloc: Global, bytes: &[u8]) -> Result<Message, MessageRefused>
    ensures { MatchResult result (λ message. read_sync bytes.now ≡ Ok message) (λ refused. IsRefusal (read_sync bytes.now) refused) }
{
    if bytes.is_empty() {
        return Err(MessageRefused::Bad(BadSync::Short));
    }
    if bytes[0] == 0 {
        read_new(alloc, bytes)
    } else {
        read_old(alloc, bytes)
    }
}

fn read_new(alloc: Global, bytes: &[u8]) -> Result<Message, MessageRefused>
    ensures { MatchResult result (λ message. read_new_message bytes.now ≡ Ok message) (λ refused. IsRefusal (read_new_message bytes.now) refused) }
{
    if bytes.len() < NEW_HEADER {
        return Err(MessageRefused::Bad(BadSync::Short));
    }
    if bytes[NEW_VERSION] != 1 || word(bytes, NEW_SPARE) != 0 {
        return Err(MessageRefused::Bad(BadSync::Version));
    }
    if !is_sized(bytes) {
        return Err(MessageRefused::Bad(BadSync::Size));
    }
    let items = read_records(
        alloc,
        Version::One,
        bytes[NEW_COUNT],
        rest_from(bytes, NEW_HEADER),
    )?;
    Ok(Message {
        sync_id: bytes[SYNC_ID],
        items,
    })
}

fn read_old(alloc: Global, bytes: &[u8]) -> Result<Message, MessageRefused>
    ensures { MatchResult result (λ message. read_old_message bytes.now ≡ Ok message) (λ refused. IsRefusal (read_old_message bytes.now) refused) }
{
    if bytes.len() < OLD_HEADER {
        return Err(MessageRefused::Bad(BadSync::Short));
    }
    if !is_sized(bytes) {
        return Err(MessageRefused::Bad(BadSync::Size));
    }
    let items = read_records(
        alloc,
        Version::Zero,
        bytes[OLD_COUNT],
        rest_from(bytes, OLD_HEADER),
    )?;
    Ok(Message {
        sync_id: bytes[SYNC_ID],
        items,
    })
}

fn is_sized(bytes: &[u8]) -> bool
    requires { 4 ≤ length bytes.now }
    ensures { result ≡ (word_at bytes.now 2 == length bytes.now) }
{
    usize::from(word(bytes, SIZE)) == bytes.len()
}

/// So many records, and nothing after them.
fn read_records(
    alloc: Global,
    version: Version,
    count: u8,
    bytes: &[u8],
) -> Result<Listed<SyncItem>, MessageRefused>
    ensures { MatchResult result (λ items. records_by (reader version) count bytes.now ≡ Ok items) (λ refused. IsRefusal (records_by (reader version) count bytes.now) refused) }
{
    let mut items = Vec::with_capacity(alloc, usize::from(count))?;
    let mut rest = bytes;
    'records: for _ in 0..count {
        let (item, after) = version.read_one(rest)?;
        items.push(item)?;
        rest = after;
    }
    if rest.is_empty() {
        Ok(Listed::from_vec(items))
    } else {
        Err(MessageRefused::Bad(BadSync::Count))
    }
}
