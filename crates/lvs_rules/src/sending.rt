//! The pending records are sent.
ghost use Rattle.std.specs.Prelude.{◌≡◌, ◌<◌, ◌≤◌, ◌==◌, if◌then◌else◌, length, IfOk, OnErr};
ghost use Rattle.std.specs.List.{AllByRecursion};
ghost use Rattle.lvs_model.specs.Messages.{HasOldFlags, written};
ghost use Rattle.lvs_model.specs.Sending.{messages_of, id_of_master, send};

use crate::tables::{Tables, Whole};
use lvs_sync_codec::write_message;
use lvs_types::{Bytes, Messages, NoMemory, Reply, SyncRecord};
use std::alloc::Global;

/// Records in one message.
const MOST: usize = 40;

fn master_id(id: Option<u8>) -> u8
    ensures { result ≡ id_of_master id }
{
    id.unwrap_or(0)
}

/// The version of the messages: 0 where the setting is 0, and else 1.
fn version_of(setting: u32) -> u32
    ensures range { result < 2 }
    ensures value { result ≡ (if setting == 0 then 0 else 1) }
{
    if setting == 0 { 0 } else { 1 }
}

/// A message of the first records, at most 40, in the version that a setting says.
fn write_first(
    alloc: Global,
    setting: u32,
    sync_id: u8,
    records: &[SyncRecord],
) -> Result<Bytes, NoMemory>
    requires some { 0 < length records.now }
    requires few { length records.now ≤ 40 }
    requires flags { AllByRecursion HasOldFlags records.now }
    ensures { IfOk result (λ bytes. bytes ≡ written setting sync_id records.now) }
{
    write_message(alloc, version_of(setting), sync_id, records)
}

/// One message for each run of 40 records, and one for the rest.
fn write_all(
    alloc: Global,
    setting: u32,
    sync_id: u8,
    records: &[SyncRecord],
) -> Result<Messages, NoMemory>
    requires { AllByRecursion HasOldFlags records.now }
    ensures { IfOk result (λ messages. messages ≡ messages_of setting sync_id records.now) }
{
    let mut messages = Vec::new(alloc);
    let mut rest = records;
    while rest.len() > MOST {
        let (run, more) = rest.split_at(MOST);
        messages.push(write_first(alloc, setting, sync_id, run)?)?;
        rest = more;
    }
    if !rest.is_empty() {
        messages.push(write_first(alloc, setting, sync_id, rest)?)?;
    }
    Ok(Messages::from_vec(messages))
}

/// The pending records are sent, and none stays pending.
pub(crate) fn send_pending<W: Whole, T: Tables<W>>(
    alloc: Global,
    tables: &mut T,
) -> Result<Reply, NoMemory>
    requires sound { T.is_sound tables.old }
    requires flags { AllByRecursion HasOldFlags (T.state tables.old).pending }
    ensures ok { IfOk result (λ r. (r, T.state tables.new) ≡ send (T.state tables.old)) }
    ensures err { OnErr result (T.state tables.new ≡ T.state tables.old) }
    ensures sound { T.is_sound tables.new }
{
    let messages = write_all(
        alloc,
        tables.settings().sync_version,
        master_id(tables.daemons().master),
        tables.pending(),
    )?;
    tables.clear_pending();
    Ok(Reply::Sent(messages))
}
