//! An item of any kind, by its rule.
ghost use Rattle.std.specs.Prelude.{◌≡◌, ◌<◌, ◌^◌, IfOk, OnErr};
ghost use Rattle.std.specs.List.{AllByRecursion};
ghost use Rattle.lvs_types.specs.declared.item.Item.{Item};
ghost use Rattle.lvs_model.specs.Buckets.{look_up};
ghost use Rattle.lvs_model.specs.Clock.{sweep};
ghost use Rattle.lvs_model.specs.Messages.{HasOldFlags};
ghost use Rattle.lvs_model.specs.Step.{step};
ghost use Rattle.lvs_rules.specs.Bounds.{HasHeadroom, IsNextUnnamed};
ghost use Rattle.lvs_rules.specs.Finds.{entry_in, IsGiven};
ghost use Rattle.lvs_rules.specs.TooLong.{HaveDistinctIds};

use crate::clock::{sweep, tick};
use crate::edits::{edit, set};
use crate::incoming::handle_incoming;
use crate::learning::learn;
use crate::outgoing::handle_outgoing;
use crate::sending::send_pending;
use crate::tables::{Tables, Whole};
use lvs_types::{Entry, Found, Item, NoMemory, Reply, SyncItem};
use std::alloc::Global;

/// The one entry that was found.
fn one_of(found: &Found) -> Option<Entry>
    ensures { result ≡ entry_in found.now }
{
    match found {
        Found::Nothing => None,
        Found::One(e) => Some(*e),
        Found::Due(_) => None,
    }
}

#[tactic(auto, using(crate::proofs::Finds::incoming_entry, crate::proofs::Finds::held, crate::proofs::Finds::none_held))]
fn take_incoming<W: Whole, T: Tables<W>>(
    alloc: Global,
    tables: &mut T,
    mark: u32,
    bytes: &[u8],
    found: &Found,
) -> Result<Reply, NoMemory>
    requires sound { T.is_sound tables.old }
    requires found { found.now ≡ look_up (T.state tables.old) (Item.Incoming mark bytes.now) }
    requires given { IsGiven (T.holds tables.old) (T.is_free tables.old) found.now }
    requires room { HasHeadroom (T.state tables.old) }
    requires apart { HaveDistinctIds (T.state tables.old) }
    ensures ok { IfOk result (λ r. (r, T.state tables.new) ≡ step (T.state tables.old) (Item.Incoming mark bytes.now)) }
    ensures err { OnErr result (T.state tables.new ≡ T.state tables.old) }
    ensures sound { T.is_sound tables.new }
{
    handle_incoming(alloc, tables, mark, bytes, one_of(found))
}

#[tactic(auto, using(crate::proofs::Finds::outgoing_entry, crate::proofs::Finds::held))]
fn take_outgoing<W: Whole, T: Tables<W>>(
    alloc: Global,
    tables: &mut T,
    bytes: &[u8],
    found: &Found,
) -> Result<Reply, NoMemory>
    requires sound { T.is_sound tables.old }
    requires found { found.now ≡ look_up (T.state tables.old) (Item.Outgoing bytes.now) }
    requires given { IsGiven (T.holds tables.old) (T.is_free tables.old) found.now }
    requires now { (T.state tables.old).now < 2 ^ 32 }
    ensures ok { IfOk result (λ r. (r, T.state tables.new) ≡ step (T.state tables.old) (Item.Outgoing bytes.now)) }
    ensures err { OnErr result (T.state tables.new ≡ T.state tables.old) }
    ensures sound { T.is_sound tables.new }
{
    handle_outgoing(alloc, tables, bytes, one_of(found))
}

#[tactic(auto, using(crate::proofs::Finds::learnt_entry, crate::proofs::Finds::held, crate::proofs::Finds::none_held))]
fn take_record<W: Whole, T: Tables<W>>(
    tables: &mut T,
    sync_id: u8,
    item: &SyncItem,
    found: &Found,
) -> Result<Reply, NoMemory>
    requires sound { T.is_sound tables.old }
    requires found { found.now ≡ look_up (T.state tables.old) (Item.Learn sync_id item.now) }
    requires given { IsGiven (T.holds tables.old) (T.is_free tables.old) found.now }
    requires room { HasHeadroom (T.state tables.old) }
    ensures ok { IfOk result (λ r. (r, T.state tables.new) ≡ step (T.state tables.old) (Item.Learn sync_id item.now)) }
    ensures err { OnErr result (T.state tables.new ≡ T.state tables.old) }
    ensures sound { T.is_sound tables.new }
{
    learn(tables, sync_id, item, one_of(found))
}

/// A bucket that isn't there has no due entries.
#[tactic(auto, using(crate::proofs::Sweeps::due_bucket, crate::proofs::Sweeps::due_entries, crate::proofs::Sweeps::nothing_found, crate::proofs::Sweeps::one_found))]
fn take_sweep<W: Whole, T: Tables<W>>(
    alloc: Global,
    tables: &mut T,
    bucket: u32,
    found: &Found,
) -> Result<Reply, NoMemory>
    requires sound { T.is_sound tables.old }
    requires found { found.now ≡ look_up (T.state tables.old) (Item.Sweep bucket) }
    requires given { IsGiven (T.holds tables.old) (T.is_free tables.old) found.now }
    requires buckets { 0 < (T.state tables.old).buckets }
    ensures ok { IfOk result (λ r. (r, T.state tables.new) ≡ sweep (T.state tables.old) bucket) }
    ensures err { OnErr result (T.state tables.new ≡ T.state tables.old) }
    ensures sound { T.is_sound tables.new }
{
    match found {
        Found::Due(due) => sweep(alloc, tables, bucket, due.as_slice()),
        Found::Nothing => Ok(Reply::Swept(0)),
        Found::One(_) => Ok(Reply::Swept(0)),
    }
}

/// Takes an item, for which `found` was looked up in its bucket: the definition's reply, and the
/// definition's next state. For want of memory the state is as before.
pub fn take_item<W: Whole, T: Tables<W>>(
    alloc: Global,
    tables: &mut T,
    item: &Item,
    found: &Found,
) -> Result<Reply, NoMemory>
    requires sound { T.is_sound tables.old }
    requires found { found.now ≡ look_up (T.state tables.old) item.now }
    requires given { IsGiven (T.holds tables.old) (T.is_free tables.old) found.now }
    requires room { HasHeadroom (T.state tables.old) }
    requires buckets { 0 < (T.state tables.old).buckets }
    requires apart { HaveDistinctIds (T.state tables.old) }
    requires unnamed { IsNextUnnamed (T.state tables.old) }
    requires pending { AllByRecursion HasOldFlags (T.state tables.old).pending }
    ensures ok { IfOk result (λ r. (r, T.state tables.new) ≡ step (T.state tables.old) item.now) }
    ensures err { OnErr result (T.state tables.new ≡ T.state tables.old) }
    ensures sound { T.is_sound tables.new }
{
    match item {
        Item::Incoming { mark, bytes } => {
            take_incoming(alloc, tables, *mark, bytes.as_slice(), found)
        }
        Item::Outgoing { bytes } => take_outgoing(alloc, tables, bytes.as_slice(), found),
        Item::Edit(command) => edit(alloc, tables, command),
        Item::Set(setting) => Ok(set(tables, setting)),
        Item::Learn { sync_id, item } => take_record(tables, *sync_id, item, found),
        Item::BadSync(why) => Ok(Reply::BadMessage(*why)),
        Item::Tick(moment) => Ok(tick(tables, *moment)),
        Item::Sweep(bucket) => take_sweep(alloc, tables, *bucket, found),
        Item::Reap => tables.reap(alloc),
        Item::SendSync => send_pending(alloc, tables),
    }
}
