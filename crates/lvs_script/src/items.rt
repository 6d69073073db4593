//! The items of the lines of a round, in order.
ghost use Rattle.std.specs.Prelude.{◌≡◌, ◌++◌, map, flat_map, IfOk, OnOk};
ghost use Rattle.lvs_types.specs.declared.item.Item.TheVariants as item;
ghost use Rattle.lvs_model.specs.MessageReading.{read_sync};
ghost use Rattle.lvs_model.specs.Plans.{items_of_message, items_of_line};

use lvs_sync_codec::{MessageRefused, read_message};
use lvs_types::{Bytes, Item, NoMemory, ScriptLine, SyncItem};
use std::alloc::Global;

/// One item for each record of a message.
fn push_records(items: &mut Vec<Item>, sync_id: u8, records: &[SyncItem]) -> Result<(), NoMemory>
    ensures { OnOk result (items.new.items ≡ items.old.items ++ map (λ r. item.Learn sync_id r) records.now) }
{
    for record in records {
        let item = *record;
        items.push(Item::Learn { sync_id, item })?;
    }
    Ok(())
}

/// The items of a sync message: one for each record, or one where it can't be read.
fn push_message(alloc: Global, items: &mut Vec<Item>, bytes: &Bytes) -> Result<(), NoMemory>
    ensures { OnOk result (items.new.items ≡ items.old.items ++ items_of_message (read_sync bytes.now)) }
{
    match read_message(alloc, bytes.as_slice()) {
        Err(MessageRefused::Bad(cause)) => Ok(items.push(Item::BadSync(cause))?),
        Err(MessageRefused::NoMemory) => Err(NoMemory),
        Ok(message) => push_records(items, message.sync_id, message.items.as_slice()),
    }
}

/// The items of a line; a listing has none.
fn push_line(alloc: Global, items: &mut Vec<Item>, line: &ScriptLine) -> Result<(), NoMemory>
    ensures { OnOk result (items.new.items ≡ items.old.items ++ items_of_line line.now) }
{
    match line {
        ScriptLine::Incoming { mark, bytes } => {
            let bytes = copied(alloc, bytes)?;
            Ok(items.push(Item::Incoming { mark: *mark, bytes })?)
        }
        ScriptLine::Outgoing(bytes) => {
            let bytes = copied(alloc, bytes)?;
            Ok(items.push(Item::Outgoing { bytes })?)
        }
        ScriptLine::Edit(command) => Ok(items.push(Item::Edit(*command))?),
        ScriptLine::Set(setting) => Ok(items.push(Item::Set(*setting))?),
        ScriptLine::Sync(bytes) => push_message(alloc, items, bytes),
        ScriptLine::Show(_) => Ok(()),
    }
}

/// A copy of bytes.
fn copied(alloc: Global, bytes: &Bytes) -> Result<Bytes, NoMemory>
    ensures { IfOk result (λ copy. copy ≡ bytes.now) }
{
    Ok(Bytes::copied(alloc, bytes.as_slice())?)
}

/// The items of lines, in order.
pub(crate) fn items_of_lines(alloc: Global, lines: &[ScriptLine]) -> Result<Vec<Item>, NoMemory>
    ensures { IfOk result (λ items. items.items ≡ flat_map items_of_line lines.now) }
{
    let mut items = Vec::with_capacity(alloc, lines.len())?;
    for line in lines {
        push_line(alloc, &mut items, line)?;
    }
    Ok(items)
}
