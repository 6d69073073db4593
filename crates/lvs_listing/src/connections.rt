//! The listing of connections.
ghost use Rattle.std.specs.Prelude.{◌≡◌, ◌++◌, drop, OnOk, IfOk};
ghost use Rattle.lvs_model.specs.Listings.{left, entry_line, entry_lines, template_line, template_lines, conns_text};

use crate::names::{code_title, proto_title, state_title};
use lvs_text::{put, put_endpoint, put_number};
use lvs_types::{Bytes, Entry, NoMemory, Snapshot, Template};
use std::alloc::Global;

/// The seconds until a deadline, 0 where it is past.
fn left(now: u64, deadline: u64) -> u64
    ensures { result ≡ left now deadline }
{
    deadline.saturating_sub(now)
}

fn put_entry(out: &mut Vec<u8>, now: u64, entry: &Entry) -> Result<(), NoMemory>
    ensures { OnOk result (out.new.items ≡ out.old.items ++ entry_line now entry.now) }
{
    put(out, proto_title(entry.key.proto))?;
    put(out, b" ")?;
    put_number(out, left(now, entry.deadline))?;
    put(out, b" ")?;
    put(out, state_title(entry.state))?;
    put(out, b" ")?;
    put_endpoint(out, entry.key.caddr, entry.key.cport)?;
    put(out, b" ")?;
    put_endpoint(out, entry.key.vaddr, entry.key.vport)?;
    put(out, b" ")?;
    put_endpoint(out, entry.daddr, entry.dport)?;
    put(out, b"\n")
}

fn put_entries(out: &mut Vec<u8>, now: u64, entries: &[Entry]) -> Result<(), NoMemory>
    ensures { OnOk result (out.new.items ≡ out.old.items ++ entry_lines now entries.now) }
{
    for entry in entries {
        put_entry(out, now, entry)?;
    }
    Ok(())
}

fn put_template(out: &mut Vec<u8>, now: u64, template: &Template) -> Result<(), NoMemory>
    ensures { OnOk result (out.new.items ≡ out.old.items ++ template_line now template.now) }
{
    put(out, b"TPL ")?;
    put_number(out, left(now, template.deadline))?;
    put(out, b" ")?;
    put(out, code_title(template.key.code))?;
    put(out, b" ")?;
    put_endpoint(out, template.key.client, 0)?;
    put(out, b" ")?;
    put_endpoint(out, template.key.vaddr, template.key.vport)?;
    put(out, b" ")?;
    put_endpoint(out, template.daddr, template.dport)?;
    put(out, b"\n")
}

fn put_templates(out: &mut Vec<u8>, now: u64, templates: &[Template]) -> Result<(), NoMemory>
    ensures { OnOk result (out.new.items ≡ out.old.items ++ template_lines now templates.now) }
{
    for template in templates {
        put_template(out, now, template)?;
    }
    Ok(())
}

/// Connections: a line for each entry by id, with the seconds that it has left, its state and its
/// three sides, and then a line for each persistence template by id (this project's profile).
pub fn list_conns(alloc: Global, tables: &Snapshot) -> Result<Bytes, NoMemory>
    ensures { IfOk result (λ text. text ≡ conns_text tables.entry.now) }
{
    let mut out = Vec::new(alloc);
    put_entries(&mut out, tables.now, tables.entries.as_slice())?;
    put_templates(&mut out, tables.now, tables.templates.as_slice())?;
    Ok(Bytes::from_vec(out))
}
