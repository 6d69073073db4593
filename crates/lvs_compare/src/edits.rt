//! Lines of ipvsadm(8) commands and of sysctls.
ghost use Rattle.std.specs.Prelude.{◌<◌, length};

use crate::chance::Chance;
use crate::network::{ALL_PORTS, PORTS, server, server_port, virtual_addr};
use lvs_text::{put, put_addr, put_endpoint, put_number};
use lvs_types::{NoMemory, Scheduler};

const SCHEDULERS: [Scheduler; 11] = [
    Scheduler::Rr,
    Scheduler::Wrr,
    Scheduler::Lc,
    Scheduler::Wlc,
    Scheduler::Sed,
    Scheduler::Nq,
    Scheduler::Sh,
    Scheduler::Dh,
    Scheduler::Fo,
    Scheduler::Ovf,
    Scheduler::Mh,
];

const WEIGHTS: [u32; 8] = [1, 1, 1, 2, 3, 6, 0, 2_147_483_647];

const TIMEOUTS: [u32; 6] = [1, 5, 30, 60, 300, 1000];

/// Appends a number behind a word.
fn put_option(out: &mut Vec<u8>, option: &[u8], number: u32) -> Result<(), NoMemory> {
    put(out, option)?;
    put_number(out, u64::from(number))
}

/// Appends the words of a TCP service.
fn put_tcp(out: &mut Vec<u8>, chance: &mut Chance, ports: &[u16]) -> Result<(), NoMemory>
    requires { 0 < length ports.now }
{
    put(out, b" -t ")?;
    put_endpoint(out, virtual_addr(chance), chance.pick(ports))
}

/// Appends the words of a service that may be of datagrams alone: of UDP or of a mark.
fn put_loose(out: &mut Vec<u8>, chance: &mut Chance, ports: &[u16]) -> Result<(), NoMemory>
    requires { 0 < length ports.now }
{
    if chance.once_in(2) {
        return put_option(out, b" -f ", 1 + chance.below(2));
    }
    put(out, b" -u ")?;
    put_endpoint(out, virtual_addr(chance), chance.pick(ports))
}

/// Appends the words of any service.
fn put_service(out: &mut Vec<u8>, chance: &mut Chance) -> Result<(), NoMemory> {
    if chance.once_in(2) {
        put_tcp(out, chance, &ALL_PORTS)
    } else {
        put_loose(out, chance, &ALL_PORTS)
    }
}

/// Appends a persistence and its mask.
fn put_persistence(out: &mut Vec<u8>, chance: &mut Chance) -> Result<(), NoMemory> {
    put_option(out, b" -p ", chance.pick(&TIMEOUTS))?;
    match chance.below(4) {
        0 => put(out, b" -M 255.255.255.0"),
        1 => put(out, b" -M 0.0.0.0"),
        _ => Ok(()),
    }
}

/// Appends the rest of a service with persistence, which may be of all ports.
fn put_persistent(out: &mut Vec<u8>, chance: &mut Chance) -> Result<(), NoMemory> {
    put_service(out, chance)?;
    put_persistence(out, chance)
}

/// Appends the rest of a service without persistence.
fn put_plain(out: &mut Vec<u8>, chance: &mut Chance) -> Result<(), NoMemory> {
    if chance.once_in(2) {
        return put_tcp(out, chance, &PORTS);
    }
    put_loose(out, chance, &PORTS)?;
    if chance.once_in(3) {
        put(out, b" -o")?;
    }
    Ok(())
}

/// Appends a service's addition or edit.
fn put_service_edit(
    out: &mut Vec<u8>,
    chance: &mut Chance,
    command: &[u8],
) -> Result<(), NoMemory> {
    put(out, command)?;
    if chance.once_in(3) {
        put_persistent(out, chance)?;
    } else {
        put_plain(out, chance)?;
    }
    put(out, b" -s ")?;
    put(out, chance.pick(&SCHEDULERS).name())
}

/// Appends a service's addition.
pub(crate) fn put_new_service(out: &mut Vec<u8>, chance: &mut Chance) -> Result<(), NoMemory> {
    put_service_edit(out, chance, b"ipvs -A")
}

/// Appends the words of a server.
fn put_server(out: &mut Vec<u8>, chance: &mut Chance) -> Result<(), NoMemory> {
    put(out, b" -r ")?;
    if chance.once_in(3) {
        put_addr(out, server(chance))
    } else {
        put_endpoint(out, server(chance), server_port(chance))
    }
}

/// Appends the upper and the lower threshold of a server's connections, which may be refused.
fn put_thresholds(out: &mut Vec<u8>, chance: &mut Chance) -> Result<(), NoMemory> {
    put_option(out, b" -x ", chance.below(5))?;
    put_option(out, b" -y ", chance.below(4))
}

/// Appends a server's addition or edit.
fn put_server_edit(out: &mut Vec<u8>, chance: &mut Chance, command: &[u8]) -> Result<(), NoMemory> {
    put(out, command)?;
    put_service(out, chance)?;
    put_server(out, chance)?;
    put(out, chance.pick(&[" -m", " -m", " -g", " -i"]).as_bytes())?;
    put_option(out, b" -w ", chance.pick(&WEIGHTS))?;
    if chance.once_in(3) {
        put_thresholds(out, chance)?;
    }
    Ok(())
}

/// Appends a server's addition.
pub(crate) fn put_new_server(out: &mut Vec<u8>, chance: &mut Chance) -> Result<(), NoMemory> {
    put_server_edit(out, chance, b"ipvs -a")
}

/// Appends a service's or a server's removal.
fn put_removal(out: &mut Vec<u8>, chance: &mut Chance) -> Result<(), NoMemory> {
    match chance.below(40) {
        0 => put(out, b"ipvs -C"),
        1..=5 => {
            put(out, b"ipvs -D")?;
            put_service(out, chance)
        }
        _ => {
            put(out, b"ipvs -d")?;
            put_service(out, chance)?;
            put_server(out, chance)
        }
    }
}

/// Appends a daemon's start or stop.
pub(crate) fn put_daemon(out: &mut Vec<u8>, chance: &mut Chance) -> Result<(), NoMemory> {
    match chance.below(12) {
        0 => put(out, b"ipvs --stop-daemon master"),
        1 => put(out, b"ipvs --stop-daemon backup"),
        2..=5 => put_option(
            out,
            b"ipvs --start-daemon master --syncid ",
            chance.below(3),
        ),
        _ => put_option(
            out,
            b"ipvs --start-daemon backup --syncid ",
            chance.below(3),
        ),
    }
}

/// Appends a change of the timeouts, 0 leaving one as it is.
fn put_timeouts(out: &mut Vec<u8>, chance: &mut Chance) -> Result<(), NoMemory> {
    put_option(out, b"ipvs --set ", chance.pick(&TIMEOUTS))?;
    put_option(out, b" ", chance.pick(&TIMEOUTS))?;
    put_option(out, b" ", chance.below(3))
}

/// Appends a command that edits.
pub(crate) fn put_edit(out: &mut Vec<u8>, chance: &mut Chance) -> Result<(), NoMemory> {
    match chance.below(16) {
        0..=2 => put_new_service(out, chance),
        3 => put_service_edit(out, chance, b"ipvs -E"),
        4..=8 => put_new_server(out, chance),
        9 | 10 => put_server_edit(out, chance, b"ipvs -e"),
        11 | 12 => put_removal(out, chance),
        13 => put_timeouts(out, chance),
        _ => put_daemon(out, chance),
    }
}

/// Appends a sysctl with its value.
pub(crate) fn put_sysctl(out: &mut Vec<u8>, chance: &mut Chance) -> Result<(), NoMemory> {
    match chance.below(7) {
        0 => put_option(out, b"sysctl expire_nodest_conn ", chance.below(2)),
        1 => put_option(out, b"sysctl expire_quiescent_template ", chance.below(2)),
        2 => put_option(out, b"sysctl sloppy_tcp ", chance.below(2)),
        3 => put_option(out, b"sysctl conn_reuse_mode ", chance.below(2)),
        4 => put_option(out, b"sysctl sync_version ", chance.below(2)),
        5 => put_option(out, b"sysctl sync_threshold 1 ", 2 + chance.below(3)),
        _ => put(out, b"sysctl sync_threshold 2 0"),
    }
}
