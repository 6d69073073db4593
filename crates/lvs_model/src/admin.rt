//! The words of ipvsadm(8): its commands, its options, and what was read of a line so far.
use lvs_types::{Addr, Method, Scheduler, ServiceKey, WordsCause};

/// A command.
#[derive(Clone, Copy, Debug, PartialEq, Eq)]
pub enum CommandName {
    AddService,
    EditService,
    DeleteService,
    ClearTables,
    AddServer,
    EditServer,
    DeleteServer,
    ListTables,
    SaveTables,
    SetTimeouts,
    StartDaemon,
    StopDaemon,
}

/// An option.
#[derive(Clone, Copy, Debug, PartialEq, Eq)]
pub enum OptionName {
    TcpService,
    UdpService,
    FwmarkService,
    Scheduling,
    Persistent,
    Netmask,
    OnePacket,
    RealServer,
    Gatewaying,
    Ipip,
    Masquerading,
    Weight,
    UpperThreshold,
    LowerThreshold,
    Numeric,
    Connection,
    SyncId,
    McastInterface,
}

/// What the next word is to be.
#[derive(Clone, Copy, Debug, PartialEq, Eq)]
pub enum Awaited {
    /// An option, if there is another word.
    AnOption,
    /// The value of this option.
    ValueOf(OptionName),
    /// The three numbers of `--set`, one after the other.
    EstablishedTimeout,
    FinWaitTimeout,
    UdpTimeout,
    /// `master` or `backup`.
    Role,
}

/// Which sync daemon a command speaks of.
#[derive(Clone, Copy, Debug, PartialEq, Eq)]
pub enum DaemonRole {
    Master,
    Backup,
}

/// The value of a service option.
#[derive(Clone, Copy, Debug, PartialEq, Eq)]
pub struct GivenService {
    /// The number of its word, from 0.
    pub at: usize,
    pub key: ServiceKey,
}

/// An address with a port, where one is written.
#[derive(Clone, Copy, Debug, PartialEq, Eq)]
pub struct GivenEndpoint {
    pub addr: Addr,
    pub port: Option<u16>,
}

/// What was read of a line so far. An option that wasn't given is None or false.
#[derive(Clone, Copy, Debug, PartialEq, Eq)]
pub struct WordsRead {
    pub command: CommandName,
    pub awaited: Awaited,
    pub service: Option<GivenService>,
    pub scheduler: Option<Scheduler>,
    /// The timeout of `-p` in seconds.
    pub persist: Option<u32>,
    /// The number of the word `-M`.
    pub netmask_at: Option<usize>,
    /// How many leading bits the mask of `-M` has.
    pub mask_bits: Option<u8>,
    /// The number of the word `-o`.
    pub one_packet_at: Option<usize>,
    pub server: Option<GivenEndpoint>,
    pub method: Option<Method>,
    pub weight: Option<u32>,
    pub upper: Option<u32>,
    pub lower: Option<u32>,
    pub numeric: bool,
    pub connection: bool,
    pub sync_id: Option<u8>,
    pub interface: bool,
    pub role: Option<DaemonRole>,
    /// The timeouts of `--set` in seconds.
    pub established: u32,
    pub fin_wait: u32,
    pub udp: u32,
}

/// A refused word.
#[derive(Clone, Copy, Debug, PartialEq, Eq)]
pub struct BadWord {
    /// Its number, from 0; the number of words where one is missing.
    pub at: usize,
    pub cause: WordsCause,
}

/// A sysctl.
#[derive(Clone, Copy, Debug, PartialEq, Eq)]
pub enum SysctlName {
    ExpireNodest,
    ExpireQuiescent,
    SloppyTcp,
    ReuseMode,
    SyncThreshold,
    SyncVersion,
}
