//! Writing sync messages.
ghost use Rattle.std.specs.Prelude.{◌≡◌, ◌≤◌, ◌<◌, ◌++◌, length, flat_map, IfOk, OnOk, All};
ghost use Rattle.lvs_model.specs.Messages.{written, record_bytes, header_bytes, old_record_bytes, old_header_bytes, port_bytes, address_bytes, HasOldFlags};

use crate::fields::{put_addr, put_number, put_word};
use lvs_types::{Bytes, NoMemory, SyncRecord};
use std::alloc::Global;

/// The bytes of a record of version 1, without options.
const NEW_RECORD: u16 = 36;

/// The bytes of a record of version 0.
const OLD_RECORD: u16 = 24;

/// The message of these records, 1 to 40, in version 0 or 1.
///
/// Version 0 tells flags below 65,536 without a bit of 0x600, and neither marks nor timeouts.
pub fn write_message(
    alloc: Global,
    version: u32,
    sync_id: u8,
    items: &[SyncRecord],
) -> Result<Bytes, NoMemory>
    requires version { version < 2 }
    requires some { 0 < length items.now }
    requires few { length items.now ≤ 40 }
    requires flags { version ≡ 0 → All HasOldFlags items.now }
    ensures { IfOk result (λ bytes. bytes ≡ written version sync_id items.now) }
{
    if version == 0 {
        write_old(alloc, sync_id, items)
    } else {
        write_new(alloc, sync_id, items)
    }
}

fn write_new(alloc: Global, sync_id: u8, items: &[SyncRecord]) -> Result<Bytes, NoMemory>
    requires few { length items.now ≤ 40 }
    ensures { IfOk result (λ bytes. bytes ≡ header_bytes sync_id (length items.now) ++ flat_map record_bytes items.now) }
{
    let count = items.len() as u8;
    let size = 8 + NEW_RECORD * u16::from(count);
    let mut out = Vec::with_capacity(alloc, usize::from(size))?;
    out.extend_from_slice(&[0, sync_id])?;
    put_word(&mut out, size)?;
    out.extend_from_slice(&[count, 1, 0, 0])?;
    for item in items {
        put_new_record(&mut out, item)?;
    }
    Ok(Bytes::from_vec(out))
}

fn write_old(alloc: Global, sync_id: u8, items: &[SyncRecord]) -> Result<Bytes, NoMemory>
    requires few { length items.now ≤ 40 }
    requires flags { All HasOldFlags items.now }
    ensures { IfOk result (λ bytes. bytes ≡ old_header_bytes sync_id (length items.now) ++ flat_map old_record_bytes items.now) }
{
    let count = items.len() as u8;
    let size = 4 + OLD_RECORD * u16::from(count);
    let mut out = Vec::with_capacity(alloc, usize::from(size))?;
    out.extend_from_slice(&[count, sync_id])?;
    put_word(&mut out, size)?;
    for item in items {
        put_old_record(&mut out, item)?;
    }
    Ok(Bytes::from_vec(out))
}

fn put_new_record(out: &mut Vec<u8>, item: &SyncRecord) -> Result<(), NoMemory>
    ensures { OnOk result (out.new.items ≡ out.old.items ++ record_bytes item.now) }
{
    out.extend_from_slice(&[0, item.code])?;
    put_word(out, NEW_RECORD)?;
    put_number(out, item.flags)?;
    put_word(out, item.state)?;
    put_ports(out, item)?;
    put_number(out, item.mark)?;
    put_number(out, item.timeout)?;
    put_addresses(out, item)?;
    Ok(())
}

fn put_old_record(out: &mut Vec<u8>, item: &SyncRecord) -> Result<(), NoMemory>
    requires { item.now.flags < 65536 }
    ensures { OnOk result (out.new.items ≡ out.old.items ++ old_record_bytes item.now) }
{
    out.extend_from_slice(&[0, item.code])?;
    put_ports(out, item)?;
    put_addresses(out, item)?;
    put_word(out, item.flags as u16)?;
    put_word(out, item.state)?;
    Ok(())
}

fn put_ports(out: &mut Vec<u8>, item: &SyncRecord) -> Result<(), NoMemory>
    ensures { OnOk result (out.new.items ≡ out.old.items ++ port_bytes item.now) }
{
    put_word(out, item.cport)?;
    put_word(out, item.vport)?;
    put_word(out, item.dport)?;
    Ok(())
}

fn put_addresses(out: &mut Vec<u8>, item: &SyncRecord) -> Result<(), NoMemory>
    ensures { OnOk result (out.new.items ≡ out.old.items ++ address_bytes item.now) }
{
    put_addr(out, item.caddr)?;
    put_addr(out, item.vaddr)?;
    put_addr(out, item.daddr)?;
    Ok(())
}
