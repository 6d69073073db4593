//! The listing of services and servers.
ghost use Rattle.std.specs.Prelude.{◌≡◌, ◌++◌, drop, OnOk, IfOk};
ghost use Rattle.lvs_model.specs.Listings.{key_text, service_line, server_line, server_lines, rows_of, service_lines, list_text};

use crate::groups::Groups;
use crate::names::{is_server_of, method_title};
use crate::options::put_options;
use lvs_text::{put, put_endpoint, put_number};
use lvs_types::{Bytes, DestRow, NoMemory, Proto, Service, ServiceKey, Snapshot};
use std::alloc::Global;

#[tactic(auto, unfolding(lvs_model::specs::Listings::key_text))]
fn put_key(out: &mut Vec<u8>, key: ServiceKey) -> Result<(), NoMemory>
    ensures { OnOk result (out.new.items ≡ out.old.items ++ key_text key) }
{
    match key {
        ServiceKey::Net {
            proto: Proto::Tcp,
            addr,
            port,
        } => {
            put(out, b"TCP ")?;
            put_endpoint(out, addr, port)
        }
        ServiceKey::Net {
            proto: Proto::Udp,
            addr,
            port,
        } => {
            put(out, b"UDP ")?;
            put_endpoint(out, addr, port)
        }
        ServiceKey::Mark(mark) => {
            put(out, b"FWM ")?;
            put_number(out, u64::from(mark))
        }
    }
}

fn put_service(out: &mut Vec<u8>, service: &Service) -> Result<(), NoMemory>
    ensures { OnOk result (out.new.items ≡ out.old.items ++ service_line service.now) }
{
    put_key(out, service.key)?;
    put(out, b" ")?;
    put(out, service.scheduler.name())?;
    put_options(out, b" persistent ", b" mask ", b" ops", service)?;
    put(out, b"\n")
}

fn put_server(out: &mut Vec<u8>, row: &DestRow) -> Result<(), NoMemory>
    ensures { OnOk result (out.new.items ≡ out.old.items ++ server_line row.now) }
{
    put(out, b"  -> ")?;
    put_endpoint(out, row.dest.spec.addr, row.dest.spec.port)?;
    put(out, b" ")?;
    put(out, method_title(row.dest.spec.method))?;
    put(out, b" ")?;
    put_number(out, u64::from(row.dest.spec.weight))?;
    put(out, b" ")?;
    put_number(out, row.active)?;
    put(out, b" ")?;
    put_number(out, row.inactive)?;
    put(out, b"\n")
}

/// Appends the lines of a service's servers.
fn put_servers(out: &mut Vec<u8>, key: ServiceKey, rows: &[DestRow]) -> Result<(), NoMemory>
    ensures { OnOk result (out.new.items ≡ out.old.items ++ server_lines (rows_of key rows.now)) }
{
    for row in rows {
        if is_server_of(key, &row.dest) {
            put_server(out, row)?;
        }
    }
    Ok(())
}

/// Appends the services, each with its servers under it.
fn put_services(
    alloc: Global,
    out: &mut Vec<u8>,
    services: &[Service],
    rows: &[DestRow],
) -> Result<(), NoMemory>
    ensures { OnOk result (out.new.items ≡ out.old.items ++ service_lines rows.now services.now) }
{
    let groups = Groups::of(alloc, services.len(), rows)?;
    for service in services {
        put_service(out, service)?;
        put_servers(out, service.key, groups.around(service.key))?;
    }
    Ok(())
}

/// Services and servers: for each service in order its line, with scheduler, persistence, mask and
/// one-packet scheduling where they aren't the defaults, and under it its live servers in order,
/// with method, weight, active and inactive connections (as `ipvsadm -L -n` lists them; this
/// project's profile).
pub fn list(alloc: Global, tables: &Snapshot) -> Result<Bytes, NoMemory>
    ensures { IfOk result (λ text. text ≡ list_text tables.entry.now) }
{
    let mut out = Vec::new(alloc);
    put_services(
        alloc,
        &mut out,
        tables.services.as_slice(),
        tables.dests.as_slice(),
    )?;
    Ok(Bytes::from_vec(out))
}
