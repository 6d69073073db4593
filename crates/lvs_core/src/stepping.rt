//! An item is taken: its bucket finds, the board decides, and the bucket changes. The act is taken out at
//! once, so that the actor and the number which the board notes with it are 0.
ghost use Rattle.std.specs.Prelude.{◌≡◌, ◌+◌, ◌<◌, ◌≤◌, ◌^◌, ◌∷◌, [], None, Some, IfOk, IfErr, OnOk, OnErr, length};
ghost use Rattle.std.specs.Option.{option_copied};
ghost use Rattle.lvs_types.specs.declared.item.Item.{Item};
ghost use Rattle.lvs_types.specs.declared.reply.Reply.{Reply};
ghost use Rattle.lvs_model.specs.Buckets.{head_of_item, home};
ghost use Rattle.lvs_model.specs.Step.{step, IsInRange};
ghost use Rattle.lvs_board.specs.Seen.{noted};
ghost use Rattle.lvs_core.specs.Agree.{Agree, AreBuckets, IsBucket};
ghost use Rattle.lvs_core.specs.Taking.{CanTake, HasTaken};

use crate::home::place;
use lvs_board::Board;
use lvs_bucket::Bucket;
use lvs_rules::Whole;
use lvs_types::{Found, Head, Item, NoMemory, Noted, Reply};
use std::alloc::Global;

/// An item of no bucket.
fn decide_alone<W: Whole>(
    alloc: Global,
    board: &mut Board,
    item: Item,
) -> Result<(), (Item, NoMemory)>
    requires can { CanTake board.old W.whole item }
    requires homeless { home W.whole.buckets item ≡ None }
    ensures taken { OnOk result (HasTaken board.old board.new W.whole item) }
    ensures back { IfErr result (λ e. e.0 ≡ item) }
    ensures err { OnErr result (board.new ≡ board.old) }
{
    board.decide::<W>(alloc, 0, 0, item, Found::Nothing)?;
    Ok(())
}

/// An item of a bucket; `head` is what the headers of its packet say.
fn decide_in<W: Whole>(
    alloc: Global,
    board: &mut Board,
    bucket: &mut Bucket,
    head: Option<&Head>,
    item: Item,
) -> Result<(), (Item, NoMemory)>
    requires can { CanTake board.old W.whole item }
    requires read { option_copied head ≡ head_of_item item }
    requires home { home W.whole.buckets item ≡ Some bucket.old.number }
    requires bucket { IsBucket W.whole bucket.old.number bucket.old }
    ensures taken { OnOk result (HasTaken board.old board.new W.whole item) }
    ensures bucket { OnOk result (IsBucket (step W.whole item).1 bucket.old.number bucket.new) }
    ensures back { IfErr result (λ e. e.0 ≡ item) }
    ensures err { OnErr result (board.new ≡ board.old) }
    ensures bucket_kept { OnErr result (IsBucket W.whole bucket.old.number bucket.new) }
{
    let found = match bucket.prepare(alloc, &item, head, board.moment()) {
        Ok(found) => found,
        Err(cause) => return Err((item, cause)),
    };
    let change = board.decide::<W>(alloc, 0, 0, item, found)?;
    bucket.apply(&change);
    Ok(())
}

/// An item of the bucket of this number.
fn take_in<W: Whole>(
    alloc: Global,
    board: &mut Board,
    buckets: &mut [Bucket],
    number: u32,
    head: Option<&Head>,
    item: Item,
) -> Result<(), (Item, NoMemory)>
    requires can { CanTake board.old W.whole item }
    requires read { option_copied head ≡ head_of_item item }
    requires home { home W.whole.buckets item ≡ Some number }
    requires there { number < length buckets.old }
    requires each { AreBuckets W.whole 0 buckets.old }
    ensures taken { OnOk result (HasTaken board.old board.new W.whole item) }
    ensures each { OnOk result (AreBuckets (step W.whole item).1 0 buckets.new) }
    ensures length { length buckets.new ≡ length buckets.old }
    ensures back { IfErr result (λ e. e.0 ≡ item) }
    ensures err { OnErr result (board.new ≡ board.old) }
    ensures each_kept { OnErr result (AreBuckets W.whole 0 buckets.new) }
{
    let bucket = &mut buckets[number as usize];
    decide_in::<W>(alloc, board, bucket, head, item)?;
    Ok(())
}

/// The board and the item's bucket take the item.
fn take_item<W: Whole>(
    alloc: Global,
    board: &mut Board,
    buckets: &mut [Bucket],
    item: Item,
) -> Result<(), (Item, NoMemory)>
    requires can { CanTake board.old W.whole item }
    requires whole { length buckets.old ≡ W.whole.buckets }
    requires some { 0 < length buckets.old }
    requires few { length buckets.old ≤ 256 }
    requires each { AreBuckets W.whole 0 buckets.old }
    ensures taken { OnOk result (HasTaken board.old board.new W.whole item) }
    ensures each { OnOk result (AreBuckets (step W.whole item).1 0 buckets.new) }
    ensures length { length buckets.new ≡ length buckets.old }
    ensures back { IfErr result (λ e. e.0 ≡ item) }
    ensures err { OnErr result (board.new ≡ board.old) }
    ensures each_kept { OnErr result (AreBuckets W.whole 0 buckets.new) }
{
    let home = place(&item, buckets.len() as u32);
    match home.bucket {
        None => decide_alone::<W>(alloc, board, item),
        Some(number) => take_in::<W>(alloc, board, buckets, number, home.head.as_ref(), item),
    }
}

/// The item and the reply of the one act.
fn part(mut acts: Vec<Noted>) -> (Item, Reply)
    requires { length acts.items ≡ 1 }
    ensures { (item : Item) (reply : Reply) → acts.items ≡ noted 0 0 item reply ∷ [] → result ≡ (item, reply) }
{
    match acts.pop() {
        Some(act) => (act.item, act.reply),
        None => unreachable!(),
    }
}

/// The board and the buckets take the item, and its act is taken out of the book.
pub(crate) fn answer<W: Whole>(
    alloc: Global,
    board: &mut Board,
    buckets: &mut [Bucket],
    item: Item,
) -> Result<(Item, Reply), (Item, NoMemory)>
    requires agree { Agree board.old buckets.old W.whole }
    requires young { board.old.steps < 2 ^ 62 }
    requires in_range { IsInRange item }
    ensures agree { OnOk result (Agree board.new buckets.new (step W.whole item).1) }
    ensures answer { IfOk result (λ r. r ≡ (item, (step W.whole item).0)) }
    ensures steps { OnOk result (board.new.steps ≡ board.old.steps + 1) }
    ensures back { IfErr result (λ e. e.0 ≡ item) }
    ensures err { OnErr result (Agree board.new buckets.new W.whole) }
    ensures err_steps { OnErr result (board.new.steps ≡ board.old.steps) }
{
    take_item::<W>(alloc, board, buckets, item)?;
    Ok(part(board.take_acts(alloc)))
}
