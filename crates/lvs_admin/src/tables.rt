//! The commands and options of ipvsadm(8), as tables.
ghost use Rattle.std.specs.Prelude.{◌≡◌, bytes_eq};
ghost use Rattle.lvs_model.specs.AdminWords.{awaited_after};
ghost use Rattle.lvs_model.specs.AdminTables.{is_either, names_command, command_of, names_option, option_of, allowed, allows, option_number};

use lvs_model::admin::{Awaited, CommandName, OptionName};

/// All commands.
const COMMANDS: [CommandName; 12] = [
    CommandName::AddService,
    CommandName::EditService,
    CommandName::DeleteService,
    CommandName::ClearTables,
    CommandName::AddServer,
    CommandName::EditServer,
    CommandName::DeleteServer,
    CommandName::ListTables,
    CommandName::SaveTables,
    CommandName::SetTimeouts,
    CommandName::StartDaemon,
    CommandName::StopDaemon,
];

/// All options.
const OPTIONS: [OptionName; 18] = [
    OptionName::TcpService,
    OptionName::UdpService,
    OptionName::FwmarkService,
    OptionName::Scheduling,
    OptionName::Persistent,
    OptionName::Netmask,
    OptionName::OnePacket,
    OptionName::RealServer,
    OptionName::Gatewaying,
    OptionName::Ipip,
    OptionName::Masquerading,
    OptionName::Weight,
    OptionName::UpperThreshold,
    OptionName::LowerThreshold,
    OptionName::Numeric,
    OptionName::Connection,
    OptionName::SyncId,
    OptionName::McastInterface,
];

pub(crate) fn is_name(name: &[u8], word: &[u8]) -> bool
    ensures { result ≡ bytes_eq word.now name.now }
{
    word == name
}

fn is_either(short: &[u8], long: &[u8], word: &[u8]) -> bool
    ensures { result ≡ is_either short.now long.now word.now }
{
    is_name(short, word) || is_name(long, word)
}

/// The names of the commands.
#[rattlefmt::skip]
fn names_command(word: &[u8], command: CommandName) -> bool
    ensures { result ≡ names_command word.now command }
{
    match command {
        CommandName::AddService => is_either(b"-A", b"--add-service", word),
        CommandName::EditService => is_either(b"-E", b"--edit-service", word),
        CommandName::DeleteService => is_either(b"-D", b"--delete-service", word),
        CommandName::ClearTables => is_either(b"-C", b"--clear", word),
        CommandName::AddServer => is_either(b"-a", b"--add-server", word),
        CommandName::EditServer => is_either(b"-e", b"--edit-server", word),
        CommandName::DeleteServer => is_either(b"-d", b"--delete-server", word),
        CommandName::ListTables => is_either(b"-L", b"--list", word) || is_name(b"-l", word),
        CommandName::SaveTables => is_either(b"-S", b"--save", word),
        CommandName::SetTimeouts => is_name(b"--set", word),
        CommandName::StartDaemon => is_name(b"--start-daemon", word),
        CommandName::StopDaemon => is_name(b"--stop-daemon", word),
    }
}

/// The names of the options.
#[rattlefmt::skip]
fn names_option(word: &[u8], option: OptionName) -> bool
    ensures { result ≡ names_option word.now option }
{
    match option {
        OptionName::TcpService => is_either(b"-t", b"--tcp-service", word),
        OptionName::UdpService => is_either(b"-u", b"--udp-service", word),
        OptionName::FwmarkService => is_either(b"-f", b"--fwmark-service", word),
        OptionName::Scheduling => is_either(b"-s", b"--scheduler", word),
        OptionName::Persistent => is_either(b"-p", b"--persistent", word),
        OptionName::Netmask => is_either(b"-M", b"--netmask", word),
        OptionName::OnePacket => is_either(b"-o", b"--ops", word),
        OptionName::RealServer => is_either(b"-r", b"--real-server", word),
        OptionName::Gatewaying => is_either(b"-g", b"--gatewaying", word),
        OptionName::Ipip => is_either(b"-i", b"--ipip", word),
        OptionName::Masquerading => is_either(b"-m", b"--masquerading", word),
        OptionName::Weight => is_either(b"-w", b"--weight", word),
        OptionName::UpperThreshold => is_either(b"-x", b"--u-threshold", word),
        OptionName::LowerThreshold => is_either(b"-y", b"--l-threshold", word),
        OptionName::Numeric => is_either(b"-n", b"--numeric", word),
        OptionName::Connection => is_either(b"-c", b"--connection", word),
        OptionName::SyncId => is_name(b"--syncid", word),
        OptionName::McastInterface => is_name(b"--mcast-interface", word),
    }
}

/// The options that may stand with a command.
#[rattlefmt::skip]
fn allowed(command: CommandName) -> &'static [OptionName]
    ensures { result.now ≡ allowed command }
{
    use OptionName::*;
    match command {
        CommandName::AddService | CommandName::EditService => {
            &[TcpService, UdpService, FwmarkService, Scheduling, Persistent, Netmask, OnePacket]
        }
        CommandName::DeleteService => &[TcpService, UdpService, FwmarkService],
        CommandName::ClearTables => &[],
        CommandName::AddServer | CommandName::EditServer => {
            &[TcpService, UdpService, FwmarkService, RealServer, Gatewaying, Ipip, Masquerading, Weight, UpperThreshold, LowerThreshold]
        }
        CommandName::DeleteServer => &[TcpService, UdpService, FwmarkService, RealServer],
        CommandName::ListTables => &[Numeric, Connection],
        CommandName::SaveTables => &[Numeric],
        CommandName::SetTimeouts => &[],
        CommandName::StartDaemon | CommandName::StopDaemon => &[McastInterface, SyncId],
    }
}

/// The command that a word names.
pub(crate) fn command_of(word: &[u8]) -> Option<CommandName>
    ensures { result ≡ command_of word.now }
{
    COMMANDS
        .iter()
        .copied()
        .find(|command| names_command(word, *command))
}

/// The option that a word names.
pub(crate) fn option_of(word: &[u8]) -> Option<OptionName>
    ensures { result ≡ option_of word.now }
{
    OPTIONS
        .iter()
        .copied()
        .find(|option| names_option(word, *option))
}

/// Whether an option may stand with a command.
pub(crate) fn allows(command: CommandName, option: OptionName) -> bool
    ensures { result ≡ allows command option }
{
    allowed(command).contains(&option)
}

/// What comes at once after a command.
pub(crate) fn awaited_after(command: CommandName) -> Awaited
    ensures { result ≡ awaited_after command }
{
    match command {
        CommandName::SetTimeouts => Awaited::EstablishedTimeout,
        CommandName::StartDaemon | CommandName::StopDaemon => Awaited::Role,
        _ => Awaited::AnOption,
    }
}
