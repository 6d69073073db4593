//! The director's lines: heads, acts, and the first lines of listings.
ghost use Rattle.std.specs.Prelude.{◌≡◌, ◌++◌, ◌∷◌, [], ◌<◌, ◌-◌, take, drop, length, decimal, IfOk, OnOk};
ghost use Rattle.lvs_model.specs.Progress as progress;
ghost use Rattle.lvs_model.specs.Report.{is_printed, reply_text, shown_name};
ghost use Rattle.lvs_check.specs.Kinds.{sizes_in};
ghost use Rattle.lvs_check.specs.Acts.{lone_act};

use crate::line::RoundSizes;
use lvs_report::print_round;
use lvs_text::{put, put_hex, put_number};
use lvs_types::{Item, Listed, NoMemory, Noted, Reply, RoundBook, Shown};
use std::alloc::Global;

/// The length of `round 0 at 0 workers 0 buckets 0`, a line feed and a place of one digit.
const PLACE_END: usize = 34;

/// `round NUMBER at MOMENT workers W buckets B`.
pub(crate) fn head_words(
    alloc: Global,
    number: u64,
    moment: u64,
    sizes: RoundSizes,
) -> Result<Vec<u8>, NoMemory>
    ensures { IfOk result (λ text. text.items ≡ progress.head_words number moment (sizes_in sizes)) }
{
    let mut out = Vec::new(alloc);
    put(&mut out, b"round ")?;
    put_number(&mut out, number)?;
    put(&mut out, b" at ")?;
    put_number(&mut out, moment)?;
    put(&mut out, b" workers ")?;
    put_number(&mut out, u64::from(sizes.workers))?;
    put(&mut out, b" buckets ")?;
    put_number(&mut out, u64::from(sizes.buckets))?;
    Ok(out)
}

/// Whether an act with this reply has a line.
pub(crate) fn is_printed(reply: &Reply) -> bool
    ensures { result ≡ is_printed reply.now }
{
    match reply {
        Reply::Ticked => false,
        Reply::Swept(count) => *count != 0,
        Reply::Reaped {
            templates,
            renewed,
            servers,
        } => !(*templates == 0 && *renewed == 0 && *servers == 0),
        Reply::Sent(messages) => !messages.as_slice().is_empty(),
        _ => true,
    }
}

/// A round with nothing but one act, whose item has no part in its text.
fn lone_act(alloc: Global, actor: u32, number: u64, reply: Reply) -> Result<RoundBook, NoMemory>
    ensures { IfOk result (λ book. book ≡ lone_act actor number reply) }
{
    let mut acts = Vec::with_capacity(alloc, 1)?;
    acts.push(Noted {
        actor,
        number,
        item: Item::Reap,
        reply,
    })?;
    Ok(RoundBook {
        number: 0,
        moment: 0,
        workers: 0,
        buckets: 0,
        acts: Listed::from_vec(acts),
        shown: Listed::new(alloc),
    })
}

/// The line of an act at place 0, between the head of its round and its line feed, without the
/// place.
fn behind_place(text: &[u8]) -> &[u8]
    requires { 34 < length text.now }
    ensures { result.now ≡ take (length text.now - 1 - 34) (drop 34 text.now) }
{
    &text[PLACE_END..text.len() - 1]
}

/// `PLACE ACTOR.NUMBER REPLY`, or nothing where the act has no line.
pub(crate) fn act_words(
    alloc: Global,
    place: u64,
    actor: u32,
    number: u64,
    reply: Reply,
) -> Result<Vec<u8>, NoMemory>
    ensures { IfOk result (λ text. text.items ≡ progress.act_words place actor number reply) }
{
    let mut out = Vec::new(alloc);
    if !is_printed(&reply) {
        return Ok(out);
    }
    let book = lone_act(alloc, actor, number, reply)?;
    let text = print_round(alloc, &book)?;
    put_number(&mut out, place)?;
    put(&mut out, behind_place(text.as_slice()))?;
    Ok(out)
}

/// The first line of a listing.
pub(crate) fn shown_name(alloc: Global, kind: &Shown) -> Result<Vec<u8>, NoMemory>
    ensures { IfOk result (λ text. text.items ≡ shown_name kind.now) }
{
    let mut out = Vec::new(alloc);
    match kind {
        Shown::List => put(&mut out, b"list")?,
        Shown::Conns => put(&mut out, b"conns")?,
        Shown::Save => put(&mut out, b"save")?,
        Shown::IcmpIn(bytes) => {
            put(&mut out, b"icmp in ")?;
            put_hex(&mut out, bytes.as_slice())?;
        }
        Shown::IcmpOut(bytes) => {
            put(&mut out, b"icmp out ")?;
            put_hex(&mut out, bytes.as_slice())?;
        }
    }
    Ok(out)
}
