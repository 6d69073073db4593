//! The words of commands and of sysctls.
ghost use Rattle.std.specs.Prelude.{◌≡◌, ◌++◌, [], ◌∷◌, decimal, codes, OnOk};
ghost use Rattle.lvs_model.specs.Listings.{endpoint_text};
ghost use Rattle.lvs_tidy.specs.CommandWords.{key_option, key_value, command_words, setting_words};
ghost use Rattle.lvs_tidy.specs.ScriptTexts.{spaced};

use crate::services::{put_key, put_server, put_service};
use crate::words::{put_endpoint_word, put_number_word, put_word};
use lvs_types::{Addr, Command, NoMemory, ServiceKey, Setting};

/// Appends `-d`, its service and its server.
fn put_removal(out: &mut Vec<u8>, key: ServiceKey, addr: Addr, port: u16) -> Result<(), NoMemory>
    ensures { OnOk result (out.new.items ≡ out.old.items ++ spaced (codes "-d" ∷ key_option key ∷ key_value key ∷ codes "-r" ∷ endpoint_text addr port ∷ [])) }
{
    put_word(out, b"-d")?;
    put_key(out, key)?;
    put_word(out, b"-r")?;
    put_endpoint_word(out, addr, port)
}

/// Appends `--set` and its timeouts.
fn put_timeouts(
    out: &mut Vec<u8>,
    established: u32,
    fin_wait: u32,
    udp: u32,
) -> Result<(), NoMemory>
    ensures { OnOk result (out.new.items ≡ out.old.items ++ spaced (codes "--set" ∷ decimal established ∷ decimal fin_wait ∷ decimal udp ∷ [])) }
{
    put_word(out, b"--set")?;
    put_number_word(out, u64::from(established))?;
    put_number_word(out, u64::from(fin_wait))?;
    put_number_word(out, u64::from(udp))
}

/// Appends the start of a daemon with its sync id.
fn put_start(out: &mut Vec<u8>, role: &[u8], id: u8) -> Result<(), NoMemory>
    ensures { OnOk result (out.new.items ≡ out.old.items ++ spaced (codes "--start-daemon" ∷ role.now ∷ codes "--syncid" ∷ decimal id ∷ [])) }
{
    put_word(out, b"--start-daemon")?;
    put_word(out, role)?;
    put_word(out, b"--syncid")?;
    put_number_word(out, u64::from(id))
}

/// Appends the stop of a daemon.
fn put_stop(out: &mut Vec<u8>, role: &[u8]) -> Result<(), NoMemory>
    ensures { OnOk result (out.new.items ≡ out.old.items ++ spaced (codes "--stop-daemon" ∷ role.now ∷ [])) }
{
    put_word(out, b"--stop-daemon")?;
    put_word(out, role)
}

/// Appends the words of a command.
pub(crate) fn put_command(out: &mut Vec<u8>, command: &Command) -> Result<(), NoMemory>
    ensures { OnOk result (out.new.items ≡ out.old.items ++ spaced (command_words command.now)) }
{
    match command {
        Command::AddService(service) => {
            put_word(out, b"-A")?;
            put_service(out, service)
        }
        Command::EditService(service) => {
            put_word(out, b"-E")?;
            put_service(out, service)
        }
        Command::RemoveService(key) => {
            put_word(out, b"-D")?;
            put_key(out, *key)
        }
        Command::Clear => put_word(out, b"-C"),
        Command::AddServer(key, server) => {
            put_word(out, b"-a")?;
            put_server(out, *key, server)
        }
        Command::EditServer(key, server) => {
            put_word(out, b"-e")?;
            put_server(out, *key, server)
        }
        Command::RemoveServer(key, addr, port) => put_removal(out, *key, *addr, *port),
        Command::Timeouts(established, fin_wait, udp) => {
            put_timeouts(out, *established, *fin_wait, *udp)
        }
        Command::StartMaster(id) => put_start(out, b"master", *id),
        Command::StartBackup(id) => put_start(out, b"backup", *id),
        Command::StopMaster => put_stop(out, b"master"),
        Command::StopBackup => put_stop(out, b"backup"),
    }
}

/// Appends a sysctl of one value.
fn put_value(out: &mut Vec<u8>, name: &[u8], value: u32) -> Result<(), NoMemory>
    ensures { OnOk result (out.new.items ≡ out.old.items ++ spaced (name.now ∷ decimal value ∷ [])) }
{
    put_word(out, name)?;
    put_number_word(out, u64::from(value))
}

/// Appends the name of a sysctl and its values.
pub(crate) fn put_setting(out: &mut Vec<u8>, setting: &Setting) -> Result<(), NoMemory>
    ensures { OnOk result (out.new.items ≡ out.old.items ++ spaced (setting_words setting.now)) }
{
    match *setting {
        Setting::ExpireNodest(value) => put_value(out, b"expire_nodest_conn", value),
        Setting::ExpireQuiescent(value) => put_value(out, b"expire_quiescent_template", value),
        Setting::SloppyTcp(value) => put_value(out, b"sloppy_tcp", value),
        Setting::ReuseMode(value) => put_value(out, b"conn_reuse_mode", value),
        Setting::SyncThreshold(threshold, period) => {
            put_value(out, b"sync_threshold", threshold)?;
            put_number_word(out, u64::from(period))
        }
        Setting::SyncVersion(value) => put_value(out, b"sync_version", value),
    }
}
