//! The script of a demonstration: a web service of four servers, and clients that each send a SYN and an ACK.
ghost use Rattle.std.specs.Prelude.{◌≡◌, ◌<◌, ◌≤◌, IfOk};
ghost use Rattle.lvs_model.specs.Generated.{demo_local, demo_key, demo_service, demo_server, demo_edits, client_addr, client_port, client_line, client_lines, generated};

use crate::packets::{ACK, Endpoint, SYN, tcp_packet};
use lvs_types::{
    Addr, Command, Cursor, DestSpec, Listed, Method, NoMemory, Proto, Round, Scheduler, Script,
    ScriptLine, Service, ServiceKey,
};
use std::alloc::Global;

/// 10.0.0.254, the source of tunnels.
const LOCAL: Addr = Addr {
    number: 0x0A00_00FE,
};

/// 10.0.0.1:80, the service.
const SERVICE: Endpoint = Endpoint {
    addr: Addr {
        number: 0x0A00_0001,
    },
    port: 80,
};

/// 192.168.0.0; the servers' addresses follow.
const SERVERS: u32 = 0xC0A8_0000;

/// 10.1.0.0, the first client.
const CLIENTS: u32 = 0x0A01_0000;

fn service_key() -> ServiceKey
    ensures { result ≡ demo_key }
{
    ServiceKey::Net {
        proto: Proto::Tcp,
        addr: SERVICE.addr,
        port: SERVICE.port,
    }
}

/// `-A -t 10.0.0.1:80 -s rr`.
fn add_service() -> ScriptLine
    ensures { result ≡ ScriptLine.Edit (Command.AddService demo_service) }
{
    ScriptLine::Edit(Command::AddService(Service {
        key: service_key(),
        scheduler: Scheduler::Rr,
        persist: None,
        mask_bits: 32,
        one_packet: false,
        cursor: Cursor { last: None, cw: 0 },
    }))
}

/// `-a -t 10.0.0.1:80 -r 192.168.0.N:80 -m -w 1`.
fn add_server(number: u8) -> ScriptLine
    ensures { result ≡ ScriptLine.Edit (Command.AddServer demo_key (demo_server number)) }
{
    let server = DestSpec {
        addr: Addr {
            number: SERVERS + u32::from(number),
        },
        port: 80,
        method: Method::Masq,
        weight: 1,
        upper: 0,
        lower: 0,
    };
    ScriptLine::Edit(Command::AddServer(service_key(), server))
}

/// The service and its servers.
fn edits(alloc: Global) -> Result<Vec<ScriptLine>, NoMemory>
    ensures { IfOk result (λ lines. lines.items ≡ demo_edits) }
{
    Ok(vec![in alloc;
        add_service(),
        add_server(1),
        add_server(2),
        add_server(3),
        add_server(4),
    ]?)
}

/// A client's address and port.
fn client(number: u32) -> Endpoint
    requires { number < 100000 }
    ensures addr { result.addr ≡ client_addr number }
    ensures port { result.port ≡ client_port number }
{
    Endpoint {
        addr: Addr {
            number: CLIENTS + number,
        },
        port: 1024 + (number % 60_000) as u16,
    }
}

/// A client's packet to the service.
fn client_line(alloc: Global, flags: u8, number: u32) -> Result<ScriptLine, NoMemory>
    requires { number < 100000 }
    ensures { IfOk result (λ line. line ≡ client_line flags number) }
{
    Ok(ScriptLine::Incoming {
        mark: 0,
        bytes: tcp_packet(alloc, client(number), SERVICE, flags)?,
    })
}

/// One packet of each client, in order.
fn client_lines(alloc: Global, flags: u8, clients: u32) -> Result<Vec<ScriptLine>, NoMemory>
    requires { clients ≤ 100000 }
    ensures { IfOk result (λ lines. lines.items ≡ client_lines flags clients) }
{
    let mut lines = Vec::with_capacity(alloc, clients as usize)?;
    for number in 0..clients {
        lines.push(client_line(alloc, flags, number)?)?;
    }
    Ok(lines)
}

fn round(moment: u64, lines: Vec<ScriptLine>) -> Round
    ensures { result ≡ record { moment = moment; lines = lines.items } }
{
    Round {
        moment,
        lines: Listed::from_vec(lines),
    }
}

/// The script of a demonstration with 1 to 100,000 clients (this project's profile): at 0 the web
/// service 10.0.0.1:80 with round robin over four masqueraded servers; at 1 the SYN of each
/// client, from 10.1.0.0, port 1024 on; at 2 the ACK of each.
pub fn generate(alloc: Global, clients: u32) -> Result<Script, NoMemory>
    requires some { 1 ≤ clients }
    requires few { clients ≤ 100000 }
    ensures { IfOk result (λ script. script ≡ generated clients) }
{
    Ok(Script {
        local: LOCAL,
        rounds: Listed::from_vec(vec![in alloc;
            round(0, edits(alloc)?),
            round(1, client_lines(alloc, SYN, clients)?),
            round(2, client_lines(alloc, ACK, clients)?),
        ]?),
    })
}
