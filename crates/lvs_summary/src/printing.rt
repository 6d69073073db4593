//! The lines of a summary.
ghost use Rattle.std.specs.Prelude.{◌≡◌, ◌++◌, IfOk, OnOk};
ghost use Rattle.lvs_model.specs.Summaries.{number_line, counts_line, counts_lines, summary_text};

use crate::counting::{count_forwarded, count_packets};
use lvs_text::{put, put_endpoint, put_number};
use lvs_types::{DestRow, NoMemory, RoundBook, Snapshot};
use std::alloc::Global;

/// NAME NUMBER
fn put_line(out: &mut Vec<u8>, name: &[u8], number: u64) -> Result<(), NoMemory>
    ensures { OnOk result (out.new.items ≡ out.old.items ++ number_line name.now number) }
{
    put(out, name)?;
    put(out, b" ")?;
    put_number(out, number)?;
    put(out, b"\n")
}

/// server ADDR:PORT active A inactive I
fn put_server(out: &mut Vec<u8>, row: &DestRow) -> Result<(), NoMemory>
    ensures { OnOk result (out.new.items ≡ out.old.items ++ counts_line row.now) }
{
    put(out, b"server ")?;
    put_endpoint(out, row.dest.spec.addr, row.dest.spec.port)?;
    put(out, b" active ")?;
    put_number(out, row.active)?;
    put(out, b" inactive ")?;
    put_number(out, row.inactive)?;
    put(out, b"\n")
}

fn put_servers(out: &mut Vec<u8>, rows: &[DestRow]) -> Result<(), NoMemory>
    ensures { OnOk result (out.new.items ≡ out.old.items ++ counts_lines rows.now) }
{
    for row in rows {
        put_server(out, row)?;
    }
    Ok(())
}

/// The numbers of rounds, of incoming packets, of packets sent on to servers and of entries, a line
/// each, and then a line for each server with its active and inactive connections. `tables` are those
/// that the last round left.
pub fn print_summary(
    alloc: Global,
    books: &[RoundBook],
    tables: &Snapshot,
) -> Result<Vec<u8>, NoMemory>
    ensures { IfOk result (λ text. text.items ≡ summary_text books.now tables.entry.now) }
{
    let mut out = Vec::new(alloc);
    put_line(&mut out, b"rounds", books.len() as u64)?;
    put_line(&mut out, b"packets", count_packets(books)?)?;
    put_line(&mut out, b"forwarded", count_forwarded(books)?)?;
    put_line(&mut out, b"entries", tables.entries.as_slice().len() as u64)?;
    put_servers(&mut out, tables.dests.as_slice())?;
    Ok(out)
}
