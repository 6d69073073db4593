//! Scripts that were read, and why one is refused.
use crate::{Addr, Bytes, Command, Listed, Setting, Shown};

/// A script of packets, edits, sysctls, sync messages and moments.
#[derive(Debug, PartialEq, Drop)]
pub struct Script {
    /// The source of tunnel packets.
    pub local: Addr,
    /// The rounds in order; their moments don't fall.
    pub rounds: Listed<Round>,
}

/// What stands below one `at`.
#[derive(Debug, PartialEq, Drop)]
pub struct Round {
    /// In seconds.
    pub moment: u64,
    /// The lines below its `at`, in order.
    pub lines: Listed<ScriptLine>,
}

/// A line of a round.
#[derive(Debug, PartialEq, Drop)]
pub enum ScriptLine {
    /// `in MARK HEX`: a packet from a client, with its firewall mark (0: none).
    Incoming { mark: u32, bytes: Bytes },
    /// `out HEX`: a packet from a real server.
    Outgoing(Bytes),
    /// `ipvs WORDS`: a command that edits.
    Edit(Command),
    /// `sysctl NAME VALUES`.
    Set(Setting),
    /// A sync message that arrives.
    Sync(Bytes),
    /// `list`, `conns`, `save`, `ipvs -L` or `ipvs -S`.
    Show(Shown),
}

/// Why a line of a script is refused, in the order in which the causes are looked for.
#[derive(Clone, Copy, Debug, PartialEq, Eq)]
pub enum ScriptCause {
    /// A byte is neither printable ASCII nor a tab, or no line begins with the first word.
    UnknownLine,
    /// The line has too many or too few words; not for `ipvs` and `sysctl`.
    WordCount,
    /// `local` stands behind an `at`, or a second time.
    LocalPlace,
    /// A line other than `local` and `at` stands before the first `at`.
    BeforeAt,
    /// The word of `local` is no address.
    BadAddress,
    /// SECONDS or MARK isn't 1 to 10 decimal digits, or above 4,294,967,295.
    BadNumber,
    /// The moment of `at` is less than the one before.
    TimeBack,
    /// `at` begins the 4,097th round.
    TooManyRounds,
    /// HEX isn't an even number of hexadecimal digits, at least two.
    BadHex,
    /// The number of the word, from 0, and what is wrong with it.
    BadWords { at: usize, cause: WordsCause },
    /// The words of `sysctl` name no sysctl, or no value of it.
    BadSetting,
    /// The line's items bring the sum above 1,048,576.
    TooManyItems,
}

/// Why an ipvsadm word is refused.
#[derive(Clone, Copy, Debug, PartialEq, Eq)]
pub enum WordsCause {
    /// The first word is no command, a word is no command and no option, or a daemon isn't `master`
    /// or `backup`.
    UnknownOption,
    /// No word is left where a command, a value, a service or `-r` is due.
    Missing,
    /// An option stands a second time.
    Repeated,
    /// A value isn't 1 to 10 decimal digits, or out of its range.
    BadNumber,
    /// A value is no address, no port or no mask.
    BadAddress,
    /// A value is no scheduler's name.
    BadScheduler,
    /// `-A` or `-E` of a `-t` or `-u` service with port 0, without `-p`.
    ZeroPort,
    /// A second command, service or method, an option that the command doesn't allow, `-M` without
    /// `-p`, or `-o` with `-t`.
    Conflict,
    /// A word that doesn't begin with `-` stands where an option is due.
    Extra,
}

/// Why the words of a sysctl are refused.
#[derive(Clone, Copy, Debug, PartialEq, Eq)]
pub enum SettingCause {
    /// There is no word, or the first one names no sysctl.
    UnknownName,
    /// The number of values is wrong, or a value isn't 1 to 10 decimal digits, or out of its range.
    BadValue,
}
