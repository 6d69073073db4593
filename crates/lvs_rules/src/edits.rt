//! Edits of the tables, the timeouts and the daemons (ipvsadm(8)).
ghost use Rattle.std.specs.Prelude.{◌≡◌, ◌≤◌, ◌^◌, IfOk, OnErr};
ghost use Rattle.lvs_rules.specs.Bounds.{IsNextUnnamed};
ghost use Rattle.lvs_model.specs.Edits.{add_service, edit_service, remove_service, clear, start_master, start_backup, stop_master, stop_backup, with_timeouts, or_kept, set, edit};

use crate::server_edits::{add_server, edit_server, remove_server};
use crate::tables::{Tables, Whole};
use lvs_types::{
    Command, Daemons, EditRefused, NoMemory, Reply, Service, ServiceKey, Setting, Settings,
};
use std::alloc::Global;

fn add_service<W: Whole, T: Tables<W>>(tables: &mut T, service: &Service) -> Result<Reply, NoMemory>
    requires sound { T.is_sound tables.old }
    ensures ok { IfOk result (λ r. (r, T.state tables.new) ≡ add_service (T.state tables.old) service.now) }
    ensures err { OnErr result (T.state tables.new ≡ T.state tables.old) }
    ensures sound { T.is_sound tables.new }
{
    if tables.is_service(service.key) {
        return Ok(Reply::Refused(EditRefused::Exists));
    }
    tables.add_service(service)?;
    Ok(Reply::Done)
}

fn edit_service<W: Whole, T: Tables<W>>(tables: &mut T, service: &Service) -> Reply
    requires sound { T.is_sound tables.old }
    ensures next { (result, T.state tables.new) ≡ edit_service (T.state tables.old) service.now }
    ensures sound { T.is_sound tables.new }
{
    if !tables.is_service(service.key) {
        return Reply::Refused(EditRefused::NoService);
    }
    tables.edit_service(service);
    Reply::Done
}

fn remove_service<W: Whole, T: Tables<W>>(
    alloc: Global,
    tables: &mut T,
    key: ServiceKey,
) -> Result<Reply, NoMemory>
    requires sound { T.is_sound tables.old }
    ensures ok { IfOk result (λ r. (r, T.state tables.new) ≡ remove_service (T.state tables.old) key) }
    ensures err { OnErr result (T.state tables.new ≡ T.state tables.old) }
    ensures sound { T.is_sound tables.new }
{
    if !tables.is_service(key) {
        return Ok(Reply::Refused(EditRefused::NoService));
    }
    tables.remove_servers_of(alloc, key)?;
    tables.remove_service(key);
    Ok(Reply::Done)
}

fn clear<W: Whole, T: Tables<W>>(alloc: Global, tables: &mut T) -> Result<Reply, NoMemory>
    requires sound { T.is_sound tables.old }
    ensures ok { IfOk result (λ r. (r, T.state tables.new) ≡ clear (T.state tables.old)) }
    ensures err { OnErr result (T.state tables.new ≡ T.state tables.old) }
    ensures sound { T.is_sound tables.new }
{
    tables.remove_all_servers(alloc)?;
    tables.clear_services();
    Ok(Reply::Done)
}

fn start_master<W: Whole, T: Tables<W>>(tables: &mut T, id: u8) -> Reply
    requires sound { T.is_sound tables.old }
    ensures next { (result, T.state tables.new) ≡ start_master (T.state tables.old) id (T.state tables.old).daemons.master }
    ensures sound { T.is_sound tables.new }
{
    match tables.daemons().master {
        Some(_) => Reply::Refused(EditRefused::Running),
        None => {
            let daemons = Daemons {
                master: Some(id),
                ..tables.daemons()
            };
            tables.set_daemons(daemons);
            Reply::Done
        }
    }
}

fn start_backup<W: Whole, T: Tables<W>>(tables: &mut T, id: u8) -> Reply
    requires sound { T.is_sound tables.old }
    ensures next { (result, T.state tables.new) ≡ start_backup (T.state tables.old) id (T.state tables.old).daemons.backup }
    ensures sound { T.is_sound tables.new }
{
    match tables.daemons().backup {
        Some(_) => Reply::Refused(EditRefused::Running),
        None => {
            let daemons = Daemons {
                backup: Some(id),
                ..tables.daemons()
            };
            tables.set_daemons(daemons);
            Reply::Done
        }
    }
}

fn stop_master<W: Whole, T: Tables<W>>(tables: &mut T) -> Reply
    requires sound { T.is_sound tables.old }
    ensures next { (result, T.state tables.new) ≡ stop_master (T.state tables.old) (T.state tables.old).daemons.master }
    ensures sound { T.is_sound tables.new }
{
    match tables.daemons().master {
        None => Reply::Refused(EditRefused::NotRunning),
        Some(_) => {
            let daemons = Daemons {
                master: None,
                ..tables.daemons()
            };
            tables.set_daemons(daemons);
            tables.clear_pending();
            Reply::Done
        }
    }
}

fn stop_backup<W: Whole, T: Tables<W>>(tables: &mut T) -> Reply
    requires sound { T.is_sound tables.old }
    ensures next { (result, T.state tables.new) ≡ stop_backup (T.state tables.old) (T.state tables.old).daemons.backup }
    ensures sound { T.is_sound tables.new }
{
    match tables.daemons().backup {
        None => Reply::Refused(EditRefused::NotRunning),
        Some(_) => {
            let daemons = Daemons {
                backup: None,
                ..tables.daemons()
            };
            tables.set_daemons(daemons);
            Reply::Done
        }
    }
}

fn or_old(new: u32, old: u32) -> u32
    ensures { result ≡ or_kept new old }
{
    if new == 0 { old } else { new }
}

fn set_timeouts(settings: &mut Settings, established: u32, fin_wait: u32, udp: u32)
    ensures { settings.new ≡ with_timeouts established fin_wait udp settings.old }
{
    settings.established = or_old(established, settings.established);
    settings.fin_wait = or_old(fin_wait, settings.fin_wait);
    settings.udp = or_old(udp, settings.udp);
}

/// The settings with other timeouts; 0 leaves one as it is.
fn change_timeouts<W: Whole, T: Tables<W>>(
    tables: &mut T,
    established: u32,
    fin_wait: u32,
    udp: u32,
)
    requires sound { T.is_sound tables.old }
    ensures next { T.state tables.new ≡ record (T.state tables.old) { settings = with_timeouts established fin_wait udp (T.state tables.old).settings } }
    ensures sound { T.is_sound tables.new }
{
    let mut settings = *tables.settings();
    set_timeouts(&mut settings, established, fin_wait, udp);
    tables.set_settings(settings);
}

/// Changes the named sysctl alone.
pub(crate) fn set<W: Whole, T: Tables<W>>(tables: &mut T, setting: &Setting) -> Reply
    requires sound { T.is_sound tables.old }
    ensures next { (result, T.state tables.new) ≡ set (T.state tables.old) setting.now }
    ensures sound { T.is_sound tables.new }
{
    let mut settings = *tables.settings();
    settings.set(setting);
    tables.set_settings(settings);
    Reply::Done
}

/// Carries out an edit, or refuses it and changes nothing.
pub(crate) fn edit<W: Whole, T: Tables<W>>(
    alloc: Global,
    tables: &mut T,
    command: &Command,
) -> Result<Reply, NoMemory>
    requires sound { T.is_sound tables.old }
    requires next { (T.state tables.old).next_dest ≤ 2 ^ 62 }
    requires unnamed { IsNextUnnamed (T.state tables.old) }
    ensures ok { IfOk result (λ r. (r, T.state tables.new) ≡ edit (T.state tables.old) command.now) }
    ensures err { OnErr result (T.state tables.new ≡ T.state tables.old) }
    ensures sound { T.is_sound tables.new }
{
    match command {
        Command::AddService(service) => add_service(tables, service),
        Command::EditService(service) => Ok(edit_service(tables, service)),
        Command::RemoveService(key) => remove_service(alloc, tables, *key),
        Command::Clear => clear(alloc, tables),
        Command::AddServer(key, spec) => add_server(tables, *key, spec),
        Command::EditServer(key, spec) => Ok(edit_server(tables, *key, spec)),
        Command::RemoveServer(key, addr, port) => {
            remove_server(alloc, tables, *key, *addr, *port)
        }
        Command::Timeouts(established, fin_wait, udp) => {
            change_timeouts(tables, *established, *fin_wait, *udp);
            Ok(Reply::Done)
        }
        Command::StartMaster(id) => Ok(start_master(tables, *id)),
        Command::StartBackup(id) => Ok(start_backup(tables, *id)),
        Command::StopMaster => Ok(stop_master(tables)),
        Command::StopBackup => Ok(stop_backup(tables)),
    }
}
