//! What a line means once all its words were read.
ghost use Rattle.std.specs.Prelude.{◌≡◌};
ghost use Rattle.lvs_types.specs.declared.script.WordsCause.TheVariants as cause;
ghost use Rattle.lvs_model.specs.Refusals.{needed, forbidden};
ghost use Rattle.lvs_model.specs.AdminWords.{is_tcp_service};
ghost use Rattle.lvs_model.specs.AdminLines.{is_settled, settled, checked_mask, checked_one_packet, is_portless, checked_port, service_of, read_service, service_port, server_port, server_of, read_server, server_removed, daemon_started, daemon_stopped, listing_of, line_read};

use crate::refused::bad;
use lvs_model::admin::{
    Awaited, BadWord, CommandName, DaemonRole, GivenEndpoint, GivenService, OptionName, WordsRead,
};
use lvs_types::{
    Command, Cursor, DestSpec, Line, Method, Proto, Scheduler, Service, ServiceKey, Shown,
    WordsCause,
};

/// Whether no further word must come.
fn is_settled(awaited: Awaited) -> bool
    ensures { result ≡ is_settled awaited }
{
    matches!(
        awaited,
        Awaited::AnOption | Awaited::ValueOf(OptionName::Persistent)
    )
}

/// Refuses words that end where a value is due.
pub(crate) fn settle(count: usize, read: &WordsRead) -> Result<(), BadWord>
    ensures { result ≡ settled count read.now }
{
    if is_settled(read.awaited) {
        Ok(())
    } else {
        Err(bad(count, WordsCause::Missing))
    }
}

/// Refuses an option that may not stand here.
fn forbid(option_at: Option<usize>) -> Result<(), BadWord>
    ensures { result ≡ forbidden cause.Conflict option_at }
{
    match option_at {
        None => Ok(()),
        Some(at) => Err(bad(at, WordsCause::Conflict)),
    }
}

/// A mask stands only with persistence.
fn check_mask(read: &WordsRead) -> Result<(), BadWord>
    ensures { result ≡ checked_mask read.now }
{
    if read.persist.is_some() {
        Ok(())
    } else {
        forbid(read.netmask_at)
    }
}

fn is_tcp_service(key: ServiceKey) -> bool
    ensures { result ≡ is_tcp_service key }
{
    match key {
        ServiceKey::Net {
            proto: Proto::Tcp,
            ..
        } => true,
        ServiceKey::Net {
            proto: Proto::Udp,
            ..
        } => false,
        ServiceKey::Mark(_) => false,
    }
}

/// One-packet scheduling isn't for TCP.
fn check_one_packet(service: &GivenService, read: &WordsRead) -> Result<(), BadWord>
    ensures { result ≡ checked_one_packet service.now read.now }
{
    if is_tcp_service(service.key) {
        forbid(read.one_packet_at)
    } else {
        Ok(())
    }
}

fn is_portless(key: ServiceKey) -> bool
    ensures { result ≡ is_portless key }
{
    match key {
        ServiceKey::Net { port, .. } => port == 0,
        ServiceKey::Mark(_) => false,
    }
}

/// A service of every port of an address is persistent.
fn check_port(service: &GivenService, read: &WordsRead) -> Result<(), BadWord>
    ensures { result ≡ checked_port service.now read.now }
{
    if is_portless(service.key) && !read.persist.is_some() {
        Err(bad(service.at, WordsCause::ZeroPort))
    } else {
        Ok(())
    }
}

/// The service of `-A` and `-E`, with the defaults of what wasn't given.
fn service_of(key: ServiceKey, read: &WordsRead) -> Service
    ensures { result ≡ service_of key read.now }
{
    Service {
        key,
        scheduler: read.scheduler.unwrap_or(Scheduler::Wlc),
        persist: read.persist,
        mask_bits: read.mask_bits.unwrap_or(32),
        one_packet: read.one_packet_at.is_some(),
        cursor: Cursor { last: None, cw: 0 },
    }
}

/// The service option, where one is required.
fn need_service(count: usize, read: &WordsRead) -> Result<GivenService, BadWord>
    ensures { result ≡ needed count cause.Missing read.now.service }
{
    read.service.ok_or(bad(count, WordsCause::Missing))
}

/// The value of `-r`, where one is required.
fn need_server(count: usize, read: &WordsRead) -> Result<GivenEndpoint, BadWord>
    ensures { result ≡ needed count cause.Missing read.now.server }
{
    read.server.ok_or(bad(count, WordsCause::Missing))
}

/// The sync daemon that a command speaks of.
fn need_role(count: usize, read: &WordsRead) -> Result<DaemonRole, BadWord>
    ensures { result ≡ needed count cause.Missing read.now.role }
{
    read.role.ok_or(bad(count, WordsCause::Missing))
}

fn read_service(count: usize, read: &WordsRead) -> Result<Service, BadWord>
    ensures { result ≡ read_service count read.now }
{
    let service = need_service(count, read)?;
    check_mask(read)?;
    check_one_packet(&service, read)?;
    check_port(&service, read)?;
    Ok(service_of(service.key, read))
}

/// The port of a service, 0 for a mark.
fn service_port(key: ServiceKey) -> u16
    ensures { result ≡ service_port key }
{
    match key {
        ServiceKey::Net { port, .. } => port,
        ServiceKey::Mark(_) => 0,
    }
}

/// The port of a server: only masquerading can change a packet's port.
fn server_port(method: Method, key: ServiceKey, port: Option<u16>) -> u16
    ensures { result ≡ server_port method key port }
{
    match method {
        Method::Masq => port.unwrap_or(service_port(key)),
        Method::Tunnel | Method::Direct => service_port(key),
    }
}

/// The server of `-a` and `-e`, with the defaults of what wasn't given.
fn server_of(method: Method, key: ServiceKey, endpoint: GivenEndpoint, read: &WordsRead) -> DestSpec
    ensures { result ≡ server_of method key endpoint read.now }
{
    DestSpec {
        addr: endpoint.addr,
        port: server_port(method, key, endpoint.port),
        method,
        weight: read.weight.unwrap_or(1),
        upper: read.upper.unwrap_or(0),
        lower: read.lower.unwrap_or(0),
    }
}

fn read_server(count: usize, read: &WordsRead) -> Result<(ServiceKey, DestSpec), BadWord>
    ensures { result ≡ read_server count read.now }
{
    let service = need_service(count, read)?;
    let endpoint = need_server(count, read)?;
    let method = read.method.unwrap_or(Method::Direct);
    Ok((service.key, server_of(method, service.key, endpoint, read)))
}

/// The command of `-d`.
fn remove_server(count: usize, read: &WordsRead) -> Result<Command, BadWord>
    ensures { result ≡ server_removed count read.now }
{
    let service = need_service(count, read)?;
    let endpoint = need_server(count, read)?;
    let port = endpoint.port.unwrap_or(service_port(service.key));
    Ok(Command::RemoveServer(service.key, endpoint.addr, port))
}

fn start_daemon(count: usize, read: &WordsRead) -> Result<Command, BadWord>
    ensures { result ≡ daemon_started count read.now }
{
    let id = read.sync_id.unwrap_or(0);
    match need_role(count, read)? {
        DaemonRole::Master => Ok(Command::StartMaster(id)),
        DaemonRole::Backup => Ok(Command::StartBackup(id)),
    }
}

fn stop_daemon(count: usize, read: &WordsRead) -> Result<Command, BadWord>
    ensures { result ≡ daemon_stopped count read.now }
{
    match need_role(count, read)? {
        DaemonRole::Master => Ok(Command::StopMaster),
        DaemonRole::Backup => Ok(Command::StopBackup),
    }
}

/// The listing of `-L`.
fn listing(read: &WordsRead) -> Shown
    ensures { result ≡ listing_of read.now }
{
    if read.connection {
        Shown::Conns
    } else {
        Shown::List
    }
}

/// The line of all words, where `count` is their number.
pub(crate) fn line_of(count: usize, read: &WordsRead) -> Result<Line, BadWord>
    ensures { result ≡ line_read count read.now read.now.command }
{
    let command = match read.command {
        CommandName::AddService => Command::AddService(read_service(count, read)?),
        CommandName::EditService => Command::EditService(read_service(count, read)?),
        CommandName::DeleteService => Command::RemoveService(need_service(count, read)?.key),
        CommandName::ClearTables => Command::Clear,
        CommandName::AddServer => {
            let (key, server) = read_server(count, read)?;
            Command::AddServer(key, server)
        }
        CommandName::EditServer => {
            let (key, server) = read_server(count, read)?;
            Command::EditServer(key, server)
        }
        CommandName::DeleteServer => remove_server(count, read)?,
        CommandName::ListTables => return Ok(Line::Show(listing(read))),
        CommandName::SaveTables => return Ok(Line::Show(Shown::Save)),
        CommandName::SetTimeouts => Command::Timeouts(read.established, read.fin_wait, read.udp),
        CommandName::StartDaemon => start_daemon(count, read)?,
        CommandName::StopDaemon => stop_daemon(count, read)?,
    };
    Ok(Line::Edit(command))
}
