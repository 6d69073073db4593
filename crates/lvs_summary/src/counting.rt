//! How many acts of all rounds are of a kind.
ghost use Rattle.std.specs.Prelude.{◌≡◌, ◌+◌, count_by, IfOk};
ghost use Rattle.lvs_model.specs.Summaries.{packets_of, forwarded_of};
ghost use Rattle.lvs_summary.specs.Kinds.{takes_packet, sends_on};

use lvs_types::{Item, NoMemory, Noted, Reply, RoundBook};

/// Whether the act is of an incoming packet.
fn is_packet(act: &Noted) -> bool
    ensures { result ≡ takes_packet act.now }
{
    matches!(&act.item, Item::Incoming { .. })
}

/// Whether the act sent a packet on to a server.
fn is_forwarded(act: &Noted) -> bool
    ensures { result ≡ sends_on act.now }
{
    matches!(&act.reply, Reply::Forward { .. })
}

fn count_packets_in(acts: &[Noted]) -> u64
    ensures { result ≡ count_by takes_packet acts.now }
{
    let mut count = 0_u64;
    for act in acts {
        if is_packet(act) {
            count += 1;
        }
    }
    count
}

fn count_forwarded_in(acts: &[Noted]) -> u64
    ensures { result ≡ count_by sends_on acts.now }
{
    let mut count = 0_u64;
    for act in acts {
        if is_forwarded(act) {
            count += 1;
        }
    }
    count
}

/// Both counts together. No books that fit into memory have more than a `u64` can count.
fn sum(count: u64, more: u64) -> Result<u64, NoMemory>
    ensures { IfOk result (λ sum. sum ≡ count + more) }
{
    count.checked_add(more).ok_or(NoMemory)
}

/// How many incoming packets the rounds took.
pub(crate) fn count_packets(books: &[RoundBook]) -> Result<u64, NoMemory>
    ensures { IfOk result (λ count. count ≡ packets_of books.now) }
{
    let mut count = 0_u64;
    for book in books {
        count = sum(count, count_packets_in(book.acts.as_slice()))?;
    }
    Ok(count)
}

/// How many packets the rounds sent on to servers.
pub(crate) fn count_forwarded(books: &[RoundBook]) -> Result<u64, NoMemory>
    ensures { IfOk result (λ count. count ≡ forwarded_of books.now) }
{
    let mut count = 0_u64;
    for book in books {
        count = sum(count, count_forwarded_in(book.acts.as_slice()))?;
    }
    Ok(count)
}
