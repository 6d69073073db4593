//! Reading a record of version 1.
//!
//! ```text
//! offset  0 type         bit 0 is set for IPv6
//!         1 protocol
//!         2 version      the top four bits, 0
//!         2 size         the low twelve bits, with the options
//!         4 flags
//!         8 state
//!        10 cport
//!        12 vport
//!        14 dport
//!        16 mark
//!        20 timeout      in seconds
//!        24 caddr
//!        28 vaddr
//!        32 daddr
//!        36 options, and padding to a multiple of 4
//! ```
ghost use Rattle.std.specs.Prelude.{◌≡◌, ◌≤◌, length, MatchResult, Ok, Err};
ghost use Rattle.lvs_model.specs.MessageReading.{read_record, record_of, record_size, least_size, is_v6};

use crate::fields::{addr, number, rest_from, word};
use crate::options::are_options;
use lvs_types::{BadSync, SyncItem, SyncRecord};

const CODE: usize = 1;

const SIZE: usize = 2;

const FLAGS: usize = 4;

const STATE: usize = 8;

const CPORT: usize = 10;

const VPORT: usize = 12;

const DPORT: usize = 14;

const MARK: usize = 16;

const TIMEOUT: usize = 20;

const CADDR: usize = 24;

const VADDR: usize = 28;

const DADDR: usize = 32;

/// Type, protocol and size: what an IPv6 record must have.
const FRONT: usize = 4;

/// An IPv4 record without its options.
const FIELDS: usize = 36;

/// The first record of these bytes, and the bytes after it and its padding.
///
/// Padding that is cut off where the message ends counts as there. The contents of options and of
/// IPv6 records aren't looked at.
pub(crate) fn read_new_record(bytes: &[u8]) -> Result<(SyncItem, &[u8]), BadSync>
    ensures { MatchResult result (λ read. read_record bytes.now ≡ Ok (read.0, read.1.now)) (λ cause. read_record bytes.now ≡ Err cause) }
{
    if bytes.is_empty() {
        return Err(BadSync::Count);
    }
    if bytes.len() < FRONT {
        return Err(BadSync::RecordShort);
    }
    if bytes[SIZE] / 16 != 0 {
        return Err(BadSync::RecordVersion);
    }
    let size = usize::from(size_of_record(bytes));
    if bytes.len() < size || size < least_size_of(bytes) {
        return Err(BadSync::RecordShort);
    }
    let after = rest_from(bytes, size.next_multiple_of(4));
    if is_ipv6(bytes) {
        return Ok((SyncItem::V6, after));
    }
    if !are_options(&bytes[FIELDS..size]) {
        return Err(BadSync::Options);
    }
    Ok((SyncItem::V4(fields(bytes)), after))
}

fn is_ipv6(bytes: &[u8]) -> bool
    requires { 4 ≤ length bytes.now }
    ensures { result ≡ is_v6 bytes.now }
{
    bytes[0] % 2 == 1
}

fn least_size_of(bytes: &[u8]) -> usize
    requires { 4 ≤ length bytes.now }
    ensures { result ≡ least_size bytes.now }
{
    if is_ipv6(bytes) { FRONT } else { FIELDS }
}

fn size_of_record(bytes: &[u8]) -> u16
    requires { 4 ≤ length bytes.now }
    ensures { result ≡ record_size bytes.now }
{
    word(bytes, SIZE) % 4096
}

fn fields(bytes: &[u8]) -> SyncRecord
    requires { 36 ≤ length bytes.now }
    ensures { result ≡ record_of bytes.now }
{
    SyncRecord {
        code: bytes[CODE],
        flags: number(bytes, FLAGS),
        state: word(bytes, STATE),
        cport: word(bytes, CPORT),
        vport: word(bytes, VPORT),
        dport: word(bytes, DPORT),
        mark: number(bytes, MARK),
        timeout: number(bytes, TIMEOUT),
        caddr: addr(bytes, CADDR),
        vaddr: addr(bytes, VADDR),
        daddr: addr(bytes, DADDR),
    }
}
