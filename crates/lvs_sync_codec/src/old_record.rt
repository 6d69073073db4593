//! Reading a record of version 0.
//!
//! ```text
//! offset  0 reserved
//!         1 protocol
//!         2 cport
//!         4 vport
//!         6 dport
//!         8 caddr
//!        12 vaddr
//!        16 daddr
//!        20 flags
//!        22 state
//!        24 24 more bytes, where the flags have a bit of 0x600
//! ```
ghost use Rattle.std.specs.Prelude.{◌≡◌, ◌≤◌, length, MatchResult, Ok, Err};
ghost use Rattle.lvs_model.specs.MessageReading.{read_old_record, old_record_of, old_record_size};

use crate::fields::{addr, rest_from, word};
use lvs_types::{BadSync, SyncItem, SyncRecord};

const CODE: usize = 1;

const CPORT: usize = 2;

const VPORT: usize = 4;

const DPORT: usize = 6;

const CADDR: usize = 8;

const VADDR: usize = 12;

const DADDR: usize = 16;

const FLAGS: usize = 20;

const STATE: usize = 22;

/// A record.
const FIELDS: usize = 24;

/// A record with the bytes that its flags announce.
const LONG: usize = 48;

/// The flags that announce more bytes.
const MORE: u16 = 0x600;

/// The first record of these bytes, with mark 0 and timeout 0, and the bytes after it.
pub(crate) fn read_short_record(bytes: &[u8]) -> Result<(SyncItem, &[u8]), BadSync>
    ensures { MatchResult result (λ read. read_old_record bytes.now ≡ Ok (read.0, read.1.now)) (λ cause. read_old_record bytes.now ≡ Err cause) }
{
    if bytes.is_empty() {
        return Err(BadSync::Count);
    }
    if bytes.len() < FIELDS || bytes.len() < size_of_record(bytes) {
        return Err(BadSync::RecordShort);
    }
    Ok((
        SyncItem::V4(fields(bytes)),
        rest_from(bytes, size_of_record(bytes)),
    ))
}

fn size_of_record(bytes: &[u8]) -> usize
    requires { 24 ≤ length bytes.now }
    ensures { result ≡ old_record_size bytes.now }
{
    if word(bytes, FLAGS) & MORE == 0 {
        FIELDS
    } else {
        LONG
    }
}

fn fields(bytes: &[u8]) -> SyncRecord
    requires { 24 ≤ length bytes.now }
    ensures { result ≡ old_record_of bytes.now }
{
    SyncRecord {
        code: bytes[CODE],
        flags: u32::from(word(bytes, FLAGS)),
        state: word(bytes, STATE),
        cport: word(bytes, CPORT),
        vport: word(bytes, VPORT),
        dport: word(bytes, DPORT),
        mark: 0,
        timeout: 0,
        caddr: addr(bytes, CADDR),
        vaddr: addr(bytes, VADDR),
        daddr: addr(bytes, DADDR),
    }
}
