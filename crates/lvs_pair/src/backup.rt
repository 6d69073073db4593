//! The backup of a pair: it learns the items of messages.
ghost use Rattle.std.specs.Prelude.{◌∷◌, [], OnOk, OnErr, map};
ghost use Rattle.lvs_types.specs.declared.item.Item.TheVariants as item;
ghost use Rattle.lvs_model.specs.Step.{IsInRange};
ghost use Rattle.lvs_pair.specs.Learning.{Learns, LearnsSome};
ghost use Rattle.lvs_pair.specs.Pairing.{items_in};

use lvs_core::Core;
use lvs_sync_codec::{MessageRefused, read_message};
use lvs_types::{Bytes, Item, NoMemory, Reply, SyncItem};
use std::alloc::Global;

/// A director can count so many steps.
const MOST_STEPS: u64 = 1 << 62;

/// A backup, and what it has learnt.
#[derive(Drop)]
pub(crate) struct Backup {
    pub core: Core,
    pub learnt: Vec<(Item, Reply)>,
}

impl Backup {
    /// Learns an item, after items that it has learnt, or nothing for want of memory.
    fn learn_item(&mut self, alloc: Global, item: Item) -> Result<(), NoMemory>
        requires in_range { IsInRange item }
        ensures learnt { OnOk result (Learns self.old self.new (item ∷ [])) }
        ensures err { OnErr result (LearnsSome self.old self.new (item ∷ [])) }
    {
        self.learnt.reserve(1)?;
        if self.core.steps() >= MOST_STEPS {
            return Err(NoMemory);
        }
        match self.core.step_owned(alloc, item) {
            Ok(answered) => {
                self.learnt.push_reserved(answered);
                Ok(())
            }
            Err((_, cause)) => Err(cause),
        }
    }

    /// Learns the records of a message, after items that it has learnt, or the first ones for want
    /// of memory.
    fn learn_records(
        &mut self,
        alloc: Global,
        sync_id: u8,
        records: &[SyncItem],
    ) -> Result<(), NoMemory>
        ensures learnt { OnOk result (Learns self.old self.new (map (λ r. item.Learn sync_id r) records.now)) }
        ensures err { OnErr result (LearnsSome self.old self.new (map (λ r. item.Learn sync_id r) records.now)) }
    {
        for record in records {
            let item = *record;
            self.learn_item(alloc, Item::Learn { sync_id, item })?;
        }
        Ok(())
    }

    /// Learns a message, after items that it has learnt: one item for each record, or one where it
    /// can't be read. For want of memory it learns the first ones.
    pub(crate) fn learn(&mut self, alloc: Global, message: &Bytes) -> Result<(), NoMemory>
        ensures learnt { OnOk result (Learns self.old self.new (items_in message.now)) }
        ensures err { OnErr result (LearnsSome self.old self.new (items_in message.now)) }
    {
        match read_message(alloc, message.as_slice()) {
            Err(MessageRefused::Bad(cause)) => self.learn_item(alloc, Item::BadSync(cause)),
            Err(MessageRefused::NoMemory) => Err(NoMemory),
            Ok(message) => self.learn_records(alloc, message.sync_id, message.items.as_slice()),
        }
    }
}
