//! Reading words one after the other.
ghost use Rattle.std.specs.Prelude.{◌≡◌};
ghost use Rattle.lvs_model.specs.AdminWords.{is_dashed, with_option, take_known, take_option, service_key_of, take_value, take_timeout, take_awaited, take_word, begun};
ghost use Rattle.lvs_admin.specs.Answers.{read_or_refused};

use crate::decimals::is_number;
use crate::given::{is_given, is_second};
use crate::refused::bad;
use crate::tables::{allows, awaited_after, command_of, option_of};
use crate::values::{endpoint, mask, number, role, scheduler, sync_id};
use lvs_model::admin::{
    Awaited, BadWord, CommandName, GivenEndpoint, GivenService, OptionName, WordsRead,
};
use lvs_types::{Method, Proto, ServiceKey, WordsCause};

/// The longest timeout, 31 days in seconds.
const MAX_TIMEOUT: u32 = 2_678_400;

/// The greatest weight of a server.
const MAX_WEIGHT: u32 = 2_147_483_647;

/// How long a persistence template lasts where `-p` doesn't say it, in seconds.
const DEFAULT_PERSISTENCE: u32 = 300;

/// A reader of words: what was read so far.
#[derive(Clone, Copy, Debug)]
pub(crate) struct Reader {
    pub(crate) read: WordsRead,
}

fn service_key_of(proto: Proto, endpoint: GivenEndpoint) -> ServiceKey
    ensures { result ≡ service_key_of proto endpoint }
{
    ServiceKey::Net {
        proto,
        addr: endpoint.addr,
        port: endpoint.port.unwrap_or(0),
    }
}

/// Whether a word begins with a dash.
fn is_dashed(word: &[u8]) -> bool
    ensures { result ≡ is_dashed word.now }
{
    match word {
        [] => false,
        [first, ..] => *first == b'-',
    }
}

impl Reader {
    /// A command, and nothing given yet.
    pub(crate) fn new(command: CommandName) -> Reader
        ensures { result.read ≡ begun command }
    {
        Reader {
            read: WordsRead {
                command,
                awaited: awaited_after(command),
                service: None,
                scheduler: None,
                persist: None,
                netmask_at: None,
                mask_bits: None,
                one_packet_at: None,
                server: None,
                method: None,
                weight: None,
                upper: None,
                lower: None,
                numeric: false,
                connection: false,
                sync_id: None,
                interface: false,
                role: None,
                established: 0,
                fin_wait: 0,
                udp: 0,
            },
        }
    }

    /// An option that may stand here.
    fn set_option(&mut self, at: usize, option: OptionName)
        ensures { self.new.read ≡ with_option at option self.old.read }
    {
        match option {
            OptionName::OnePacket => self.read.one_packet_at = Some(at),
            OptionName::Gatewaying => self.read.method = Some(Method::Direct),
            OptionName::Ipip => self.read.method = Some(Method::Tunnel),
            OptionName::Masquerading => self.read.method = Some(Method::Masq),
            OptionName::Numeric => self.read.numeric = true,
            OptionName::Connection => self.read.connection = true,
            OptionName::Persistent => {
                self.read.persist = Some(DEFAULT_PERSISTENCE);
                self.read.awaited = Awaited::ValueOf(option);
            }
            OptionName::Netmask => {
                self.read.netmask_at = Some(at);
                self.read.awaited = Awaited::ValueOf(option);
            }
            _ => self.read.awaited = Awaited::ValueOf(option),
        }
    }

    /// An option: repeated, in conflict with the command or another option, or taken.
    fn take_known(&mut self, at: usize, option: OptionName) -> Result<(), BadWord>
        ensures { read_or_refused result self.new.read ≡ take_known at option self.old.read }
    {
        if is_given(&self.read, option) {
            return Err(bad(at, WordsCause::Repeated));
        }
        if !allows(self.read.command, option) || is_second(&self.read, option) {
            return Err(bad(at, WordsCause::Conflict));
        }
        self.set_option(at, option);
        Ok(())
    }

    /// A word where an option is due.
    fn take_option(&mut self, at: usize, word: &[u8]) -> Result<(), BadWord>
        ensures { read_or_refused result self.new.read ≡ take_option at word.now self.old.read }
    {
        if !is_dashed(word) {
            return Err(bad(at, WordsCause::Extra));
        }
        match (option_of(word), command_of(word)) {
            (Some(option), _) => self.take_known(at, option),
            (None, Some(_)) => Err(bad(at, WordsCause::Conflict)),
            (None, None) => Err(bad(at, WordsCause::UnknownOption)),
        }
    }

    fn set_service(&mut self, at: usize, key: ServiceKey)
        ensures { self.new.read ≡ record self.old.read { service = Some (record { at = at; key = key }) } }
    {
        self.read.service = Some(GivenService { at, key });
    }

    /// The value of an option.
    fn take_value(&mut self, at: usize, word: &[u8], option: OptionName) -> Result<(), BadWord>
        ensures { read_or_refused result self.new.read ≡ take_value at word.now option self.old.read }
    {
        match option {
            OptionName::TcpService => {
                self.set_service(at, service_key_of(Proto::Tcp, endpoint(at, word)?));
            }
            OptionName::UdpService => {
                self.set_service(at, service_key_of(Proto::Udp, endpoint(at, word)?));
            }
            OptionName::FwmarkService => {
                self.set_service(at, ServiceKey::Mark(number(at, 1, u32::MAX, word)?));
            }
            OptionName::Scheduling => self.read.scheduler = Some(scheduler(at, word)?),
            OptionName::Persistent => self.read.persist = Some(number(at, 1, MAX_TIMEOUT, word)?),
            OptionName::Netmask => self.read.mask_bits = Some(mask(at, word)?),
            OptionName::RealServer => self.read.server = Some(endpoint(at, word)?),
            OptionName::Weight => self.read.weight = Some(number(at, 0, MAX_WEIGHT, word)?),
            OptionName::UpperThreshold => self.read.upper = Some(number(at, 0, u32::MAX, word)?),
            OptionName::LowerThreshold => self.read.lower = Some(number(at, 0, u32::MAX, word)?),
            OptionName::SyncId => self.read.sync_id = Some(sync_id(at, word)?),
            OptionName::McastInterface => self.read.interface = true,
            _ => {}
        }
        self.read.awaited = Awaited::AnOption;
        Ok(())
    }

    /// The word after `-p`: its value where the word is all digits, and else an option.
    fn take_timeout(&mut self, at: usize, word: &[u8]) -> Result<(), BadWord>
        ensures { read_or_refused result self.new.read ≡ take_timeout at word.now self.old.read }
    {
        if is_number(word) {
            self.take_value(at, word, OptionName::Persistent)
        } else {
            self.read.awaited = Awaited::AnOption;
            self.take_option(at, word)
        }
    }

    /// The next word, by what is awaited.
    pub(crate) fn take_word(&mut self, at: usize, word: &[u8]) -> Result<(), BadWord>
        ensures { read_or_refused result self.new.read ≡ take_word at word.now self.old.read }
    {
        match self.read.awaited {
            Awaited::AnOption => self.take_option(at, word),
            Awaited::ValueOf(OptionName::Persistent) => self.take_timeout(at, word),
            Awaited::ValueOf(option) => self.take_value(at, word, option),
            Awaited::EstablishedTimeout => {
                self.read.established = number(at, 0, MAX_TIMEOUT, word)?;
                self.read.awaited = Awaited::FinWaitTimeout;
                Ok(())
            }
            Awaited::FinWaitTimeout => {
                self.read.fin_wait = number(at, 0, MAX_TIMEOUT, word)?;
                self.read.awaited = Awaited::UdpTimeout;
                Ok(())
            }
            Awaited::UdpTimeout => {
                self.read.udp = number(at, 0, MAX_TIMEOUT, word)?;
                self.read.awaited = Awaited::AnOption;
                Ok(())
            }
            Awaited::Role => {
                self.read.role = Some(role(at, word)?);
                self.read.awaited = Awaited::AnOption;
                Ok(())
            }
        }
    }
}
