//! Edits of the real servers (ipvsadm(8), -a, -e and -d).
ghost use Rattle.std.specs.Prelude.{◌≡◌, ◌≤◌, ◌^◌, IfOk, OnErr};
ghost use Rattle.std.specs.List.{find};
ghost use Rattle.lvs_types.specs.declared.dest.Dest.{Dest};
ghost use Rattle.lvs_model.specs.Lookups.{is_server_at};
ghost use Rattle.lvs_rules.specs.Bounds.{IsNextUnnamed};
ghost use Rattle.lvs_model.specs.Edits.{add_server, edit_server, remove_server_at, remove_server};

use crate::tables::{Tables, Whole};
use lvs_types::{Addr, Dest, DestSpec, EditRefused, NoMemory, Reply, ServiceKey};
use std::alloc::Global;

/// `-a`: the server comes, or comes back from the trash, or is refused.
pub(crate) fn add_server<W: Whole, T: Tables<W>>(
    tables: &mut T,
    key: ServiceKey,
    spec: &DestSpec,
) -> Result<Reply, NoMemory>
    requires sound { T.is_sound tables.old }
    requires next { (T.state tables.old).next_dest ≤ 2 ^ 62 }
    requires unnamed { IsNextUnnamed (T.state tables.old) }
    ensures ok { IfOk result (λ r. (r, T.state tables.new) ≡ add_server (T.state tables.old) key spec.now) }
    ensures err { OnErr result (T.state tables.new ≡ T.state tables.old) }
    ensures sound { T.is_sound tables.new }
{
    if !tables.is_service(key) {
        return Ok(Reply::Refused(EditRefused::NoService));
    }
    if tables.is_server(key, spec.addr, spec.port) {
        return Ok(Reply::Refused(EditRefused::Exists));
    }
    if spec.has_bad_thresholds() {
        return Ok(Reply::Refused(EditRefused::Thresholds));
    }
    tables.place_server(key, spec)?;
    Ok(Reply::Done)
}

/// `-e`: the server gets its method, weight and thresholds, or that is refused.
pub(crate) fn edit_server<W: Whole, T: Tables<W>>(
    tables: &mut T,
    key: ServiceKey,
    spec: &DestSpec,
) -> Reply
    requires sound { T.is_sound tables.old }
    ensures next { (result, T.state tables.new) ≡ edit_server (T.state tables.old) key spec.now }
    ensures sound { T.is_sound tables.new }
{
    if !tables.is_service(key) {
        return Reply::Refused(EditRefused::NoService);
    }
    if !tables.is_server(key, spec.addr, spec.port) {
        return Reply::Refused(EditRefused::NoDest);
    }
    if spec.has_bad_thresholds() {
        return Reply::Refused(EditRefused::Thresholds);
    }
    tables.respecify_server(key, spec);
    Reply::Done
}

/// The server leaves, and a cursor that names it goes back.
fn remove_found<W: Whole, T: Tables<W>>(
    alloc: Global,
    tables: &mut T,
    key: ServiceKey,
    addr: Addr,
    port: u16,
    server: Option<Dest>,
) -> Result<Reply, NoMemory>
    requires sound { T.is_sound tables.old }
    requires found { server ≡ find (is_server_at key addr port) (T.state tables.old).dests }
    ensures ok { IfOk result (λ r. (r, T.state tables.new) ≡ remove_server_at (T.state tables.old) key server) }
    ensures err { OnErr result (T.state tables.new ≡ T.state tables.old) }
    ensures sound { T.is_sound tables.new }
{
    let Some(d) = server else {
        return Ok(Reply::Refused(EditRefused::NoDest));
    };
    tables.remove_server(alloc, key, addr, port, &d)?;
    Ok(Reply::Done)
}

/// `-d`: the server leaves its service, or that is refused.
pub(crate) fn remove_server<W: Whole, T: Tables<W>>(
    alloc: Global,
    tables: &mut T,
    key: ServiceKey,
    addr: Addr,
    port: u16,
) -> Result<Reply, NoMemory>
    requires sound { T.is_sound tables.old }
    ensures ok { IfOk result (λ r. (r, T.state tables.new) ≡ remove_server (T.state tables.old) key addr port) }
    ensures err { OnErr result (T.state tables.new ≡ T.state tables.old) }
    ensures sound { T.is_sound tables.new }
{
    if !tables.is_service(key) {
        return Ok(Reply::Refused(EditRefused::NoService));
    }
    let server = tables.server_at(key, addr, port);
    remove_found(alloc, tables, key, addr, port, server)
}
