//! A line of a report outside its listings.
ghost use Rattle.std.specs.Prelude.{◌≡◌, codes, IfOk};
ghost use Rattle.std.specs.List.{list_all};
ghost use Rattle.std.specs.Option.{option_map};
ghost use Rattle.lvs_types.specs.declared.report.ReportLine.TheVariants as line;
ghost use Rattle.lvs_model.specs.ReportReading.{head_line_of, act_line_of, listing_line_of, line_of, table_named, is_lower_digit, lower_bytes, or_else, error_named, shown_named};
ghost use Rattle.lvs_types.specs.declared.book.Shown.TheVariants as Kind;
ghost use Rattle.lvs_report.specs.Reader.{act_from};

use crate::cutting::{behind, number_up_to};
use crate::numbers::plain_number;
use hex::FromHexError;
use lvs_types::{Bytes, NoMemory, ReportLine, Shown, ShownText};
use std::alloc::Global;

/// The greatest number of 64 bits.
const GREATEST_LONG: u64 = 18_446_744_073_709_551_615;

/// The greatest number of 32 bits.
const GREATEST_INT: u64 = 4_294_967_295;

/// `round NUMBER at MOMENT workers W buckets B`.
fn head_line_of(text: &[u8]) -> Option<ReportLine>
    ensures { result ≡ head_line_of text.now }
{
    let rest = behind(b"round ", text)?;
    let (number, rest) = number_up_to(b' ', GREATEST_LONG, rest)?;
    let rest = behind(b"at ", rest)?;
    let (moment, rest) = number_up_to(b' ', GREATEST_LONG, rest)?;
    let rest = behind(b"workers ", rest)?;
    let (workers, rest) = number_up_to(b' ', GREATEST_INT, rest)?;
    let rest = behind(b"buckets ", rest)?;
    let buckets = plain_number(GREATEST_INT, rest)?;
    Some(ReportLine::Head {
        number,
        moment,
        workers: workers as u32,
        buckets: buckets as u32,
    })
}

/// The parts of an act's line.
#[derive(Clone, Copy)]
struct ActParts<'a> {
    place: u64,
    actor: u32,
    number: u64,
    reply: &'a [u8],
}

/// `PLACE ACTOR.NUMBER REPLY`, with at least one byte of reply.
fn act_parts(text: &[u8]) -> Option<ActParts<'_>>
    ensures { option_map act_from result ≡ act_line_of text.now }
{
    let (place, rest) = number_up_to(b' ', GREATEST_LONG, text)?;
    let (actor, rest) = number_up_to(b'.', GREATEST_INT, rest)?;
    let (number, reply) = number_up_to(b' ', GREATEST_LONG, rest)?;
    if reply.is_empty() {
        return None;
    }
    Some(ActParts {
        place,
        actor: actor as u32,
        number,
        reply,
    })
}

fn act_line_of(alloc: Global, text: &[u8]) -> Result<Option<ReportLine>, NoMemory>
    ensures { IfOk result (λ act. act ≡ act_line_of text.now) }
{
    match act_parts(text) {
        None => Ok(None),
        Some(parts) => Ok(Some(ReportLine::Act {
            place: parts.place,
            actor: parts.actor,
            number: parts.number,
            reply: Bytes::copied(alloc, parts.reply)?,
        })),
    }
}

/// `list`, `conns` or `save`.
fn table_named(text: &[u8]) -> Option<Shown>
    ensures { result ≡ table_named text.now }
{
    if text == b"list".as_slice() {
        Some(Shown::List)
    } else if text == b"conns".as_slice() {
        Some(Shown::Conns)
    } else if text == b"save".as_slice() {
        Some(Shown::Save)
    } else {
        None
    }
}

fn is_lower_digit(byte: u8) -> bool
    ensures { result ≡ is_lower_digit byte }
{
    byte.is_ascii_digit() || (b'a'..=b'f').contains(&byte)
}

fn are_lower_digits(digits: &[u8]) -> bool
    ensures { result ≡ list_all is_lower_digit digits.now }
{
    digits.iter().all(|byte| is_lower_digit(*byte))
}

/// An even number of lower-case hexadecimal digits, at least two.
fn lower_bytes(alloc: Global, digits: &[u8]) -> Result<Option<Bytes>, NoMemory>
    ensures { IfOk result (λ bytes. bytes ≡ lower_bytes digits.now) }
{
    if digits.is_empty() || !are_lower_digits(digits) {
        return Ok(None);
    }
    match hex::decode(alloc, digits) {
        Ok(bytes) => Ok(Some(Bytes::from_vec(bytes))),
        Err(FromHexError::OutOfMemory) => Err(NoMemory),
        Err(_) => Ok(None),
    }
}

/// `icmp in HEX`.
fn inward_named(alloc: Global, text: &[u8]) -> Result<Option<Shown>, NoMemory>
    ensures { IfOk result (λ kind. kind ≡ error_named (codes "icmp in ") Kind.IcmpIn text.now) }
{
    let Some(digits) = behind(b"icmp in ", text) else {
        return Ok(None);
    };
    match lower_bytes(alloc, digits)? {
        Some(bytes) => Ok(Some(Shown::IcmpIn(bytes))),
        None => Ok(None),
    }
}

/// `icmp out HEX`.
fn outward_named(alloc: Global, text: &[u8]) -> Result<Option<Shown>, NoMemory>
    ensures { IfOk result (λ kind. kind ≡ error_named (codes "icmp out ") Kind.IcmpOut text.now) }
{
    let Some(digits) = behind(b"icmp out ", text) else {
        return Ok(None);
    };
    match lower_bytes(alloc, digits)? {
        Some(bytes) => Ok(Some(Shown::IcmpOut(bytes))),
        None => Ok(None),
    }
}

/// The answer to an ICMP error from either side.
fn error_named(alloc: Global, text: &[u8]) -> Result<Option<Shown>, NoMemory>
    ensures { IfOk result (λ kind. kind ≡ or_else (error_named (codes "icmp in ") Kind.IcmpIn text.now) (error_named (codes "icmp out ") Kind.IcmpOut text.now)) }
{
    match inward_named(alloc, text)? {
        Some(kind) => Ok(Some(kind)),
        None => outward_named(alloc, text),
    }
}

/// What a first line shows: `list`, `conns`, `save`, `icmp in HEX` or `icmp out HEX`.
fn shown_named(alloc: Global, text: &[u8]) -> Result<Option<Shown>, NoMemory>
    ensures { IfOk result (λ kind. kind ≡ shown_named text.now) }
{
    match table_named(text) {
        Some(kind) => Ok(Some(kind)),
        None => error_named(alloc, text),
    }
}

/// The first line of a listing: a listing without lines so far.
fn listing_line_of(alloc: Global, text: &[u8]) -> Result<Option<ReportLine>, NoMemory>
    ensures { IfOk result (λ line. line ≡ listing_line_of text.now) }
{
    let Some(kind) = shown_named(alloc, text)? else {
        return Ok(None);
    };
    let text = Bytes::new(alloc);
    Ok(Some(ReportLine::Shown(ShownText { kind, text })))
}

/// A head, an act or the first line of a listing.
pub(crate) fn line_of(alloc: Global, text: &[u8]) -> Result<Option<ReportLine>, NoMemory>
    ensures { IfOk result (λ line. line ≡ line_of text.now) }
{
    if let Some(head) = head_line_of(text) {
        return Ok(Some(head));
    }
    if let Some(act) = act_line_of(alloc, text)? {
        return Ok(Some(act));
    }
    listing_line_of(alloc, text)
}
