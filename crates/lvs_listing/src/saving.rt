//! The tables as ipvsadm(8) words.
ghost use Rattle.std.specs.Prelude.{◌≡◌, ◌++◌, drop, OnOk, IfOk};
ghost use Rattle.lvs_model.specs.Listings.{key_words, service_words, server_words, rows_of, saved_servers, saved_services, save_text};

use crate::groups::Groups;
use crate::names::{is_server_of, method_word};
use crate::options::{put_options, put_threshold};
use lvs_text::{put, put_endpoint, put_number};
use lvs_types::{Bytes, DestRow, DestSpec, NoMemory, Proto, Service, ServiceKey, Snapshot};
use std::alloc::Global;

#[tactic(auto, unfolding(lvs_model::specs::Listings::key_words))]
fn put_key(out: &mut Vec<u8>, key: ServiceKey) -> Result<(), NoMemory>
    ensures { OnOk result (out.new.items ≡ out.old.items ++ key_words key) }
{
    match key {
        ServiceKey::Net {
            proto: Proto::Tcp,
            addr,
            port,
        } => {
            put(out, b"-t ")?;
            put_endpoint(out, addr, port)
        }
        ServiceKey::Net {
            proto: Proto::Udp,
            addr,
            port,
        } => {
            put(out, b"-u ")?;
            put_endpoint(out, addr, port)
        }
        ServiceKey::Mark(mark) => {
            put(out, b"-f ")?;
            put_number(out, u64::from(mark))
        }
    }
}

fn put_service(out: &mut Vec<u8>, service: &Service) -> Result<(), NoMemory>
    ensures { OnOk result (out.new.items ≡ out.old.items ++ service_words service.now) }
{
    put(out, b"-A ")?;
    put_key(out, service.key)?;
    put(out, b" -s ")?;
    put(out, service.scheduler.name())?;
    put_options(out, b" -p ", b" -M ", b" -o", service)?;
    put(out, b"\n")
}

fn put_server(out: &mut Vec<u8>, key: ServiceKey, server: &DestSpec) -> Result<(), NoMemory>
    ensures { OnOk result (out.new.items ≡ out.old.items ++ server_words key server.now) }
{
    put(out, b"-a ")?;
    put_key(out, key)?;
    put(out, b" -r ")?;
    put_endpoint(out, server.addr, server.port)?;
    put(out, b" ")?;
    put(out, method_word(server.method))?;
    put(out, b" -w ")?;
    put_number(out, u64::from(server.weight))?;
    put_threshold(out, b" -x ", server.upper)?;
    put_threshold(out, b" -y ", server.lower)?;
    put(out, b"\n")
}

/// Appends the lines of a service's servers.
fn put_servers(out: &mut Vec<u8>, key: ServiceKey, rows: &[DestRow]) -> Result<(), NoMemory>
    ensures { OnOk result (out.new.items ≡ out.old.items ++ saved_servers key (rows_of key rows.now)) }
{
    for row in rows {
        if is_server_of(key, &row.dest) {
            put_server(out, key, &row.dest.spec)?;
        }
    }
    Ok(())
}

/// Appends the services, each with its servers behind it.
fn put_services(
    alloc: Global,
    out: &mut Vec<u8>,
    services: &[Service],
    rows: &[DestRow],
) -> Result<(), NoMemory>
    ensures { OnOk result (out.new.items ≡ out.old.items ++ saved_services rows.now services.now) }
{
    let groups = Groups::of(alloc, services.len(), rows)?;
    for service in services {
        put_service(out, service)?;
        put_servers(out, service.key, groups.around(service.key))?;
    }
    Ok(())
}

/// The tables as lines of ipvsadm(8) words: for each service in order a line that adds it, and
/// then for each of its live servers a line that adds that (as `ipvsadm -S -n` prints them; this
/// project's profile).
pub fn save(alloc: Global, tables: &Snapshot) -> Result<Bytes, NoMemory>
    ensures { IfOk result (λ text. text ≡ save_text tables.entry.now) }
{
    let mut out = Vec::new(alloc);
    put_services(
        alloc,
        &mut out,
        tables.services.as_slice(),
        tables.dests.as_slice(),
    )?;
    Ok(Bytes::from_vec(out))
}
