//! One script, played by both directors.
use crate::chance::Chance;
use crate::directors::{Both, Directors};
use crate::order::{Shares, draw_shares, items_of};
use crate::script::script_text;
use crate::tally::Tally;
use lvs_script::{ScriptRefused, read_script};
use lvs_types::{Item, NoMemory, Reply, Snapshot};
use std::alloc::Global;

/// Where the directors differ.
#[derive(Debug, Drop)]
pub(crate) enum Difference {
    /// In what they answer to an item.
    Answers(Item, Both<Reply>),
    /// In what they show after some items.
    Tables(u64, Both<Snapshot>),
}

/// What a comparison shows.
#[derive(Debug, Drop)]
pub(crate) enum Outcome {
    /// Each answer and all tables were the same.
    Same,
    /// The directors differ.
    Differ(Shares, Difference),
    /// The script can't be read.
    Refused(ScriptRefused),
}

/// Both take an item.
fn compare_answers(
    alloc: Global,
    directors: &mut Directors,
    item: Item,
    tally: &mut Tally,
) -> Result<Option<Difference>, NoMemory> {
    let Some((item, answers)) = directors.step(alloc, item)? else {
        return Ok(None);
    };
    tally.count_reply(&answers.core);
    if answers.agree() {
        return Ok(None);
    }
    Ok(Some(Difference::Answers(item, answers)))
}

/// Both show what they keep.
fn compare_tables(
    alloc: Global,
    directors: &Directors,
    tally: &mut Tally,
) -> Result<Option<Difference>, NoMemory> {
    let tables = directors.show(alloc)?;
    tally.count_tables(&tables.core);
    if tables.agree() {
        return Ok(None);
    }
    Ok(Some(Difference::Tables(directors.steps(), tables)))
}

/// Both take an item, and show what they keep where it is time.
fn compare_item(
    alloc: Global,
    directors: &mut Directors,
    item: Item,
    tally: &mut Tally,
) -> Result<Option<Difference>, NoMemory> {
    match compare_answers(alloc, directors, item, tally)? {
        Some(difference) => Ok(Some(difference)),
        None if directors.are_due() => compare_tables(alloc, directors, tally),
        None => Ok(None),
    }
}

/// Both take items up to the first at which they differ, and show what they keep at the end.
fn first_difference(
    alloc: Global,
    directors: &mut Directors,
    items: Vec<Item>,
    tally: &mut Tally,
) -> Result<Option<Difference>, NoMemory> {
    for item in items {
        if let Some(difference) = compare_item(alloc, directors, item, tally)? {
            return Ok(Some(difference));
        }
    }
    compare_tables(alloc, directors, tally)
}

/// The text of the script of that number.
pub(crate) fn text_of(alloc: Global, number: u64) -> Result<Vec<u8>, NoMemory> {
    script_text(alloc, &mut Chance::new(number))
}

/// Both play the script of that number.
pub(crate) fn compare(alloc: Global, number: u64, tally: &mut Tally) -> Result<Outcome, NoMemory> {
    let mut chance = Chance::new(number);
    let text = script_text(alloc, &mut chance)?;
    let script = match read_script(alloc, &text) {
        Ok(script) => script,
        Err(refused) => return Ok(Outcome::Refused(refused)),
    };
    let shares = draw_shares(&mut chance);
    let items = items_of(alloc, &mut chance, script.rounds.as_slice(), shares)?;
    let mut directors = Directors::new(alloc, script.local, shares.buckets)?;
    tally.count_script();
    match first_difference(alloc, &mut directors, items, tally)? {
        Some(difference) => Ok(Outcome::Differ(shares, difference)),
        None => Ok(Outcome::Same),
    }
}
