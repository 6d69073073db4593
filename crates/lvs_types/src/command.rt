//! The commands of ipvsadm(8).
use crate::{Addr, DestSpec, Service, ServiceKey, Shown};

/// An edit of the tables, of the timeouts or of the sync daemons.
#[derive(Clone, Copy, Debug, PartialEq, Eq)]
pub enum Command {
    /// `-A`. The cursor of the service is at the start.
    AddService(Service),
    /// `-E`. The cursor of the service is at the start.
    EditService(Service),
    /// `-D`.
    RemoveService(ServiceKey),
    /// `-C`.
    Clear,
    /// `-a`.
    AddServer(ServiceKey, DestSpec),
    /// `-e`.
    EditServer(ServiceKey, DestSpec),
    /// `-d`: the service, and the server's address and port.
    RemoveServer(ServiceKey, Addr, u16),
    /// `--set`: the timeouts of established TCP, of FIN_WAIT and of UDP in seconds; 0 leaves one as it is.
    Timeouts(u32, u32, u32),
    /// `--start-daemon master`, with its sync id.
    StartMaster(u8),
    /// `--start-daemon backup`, with its sync id.
    StartBackup(u8),
    /// `--stop-daemon master`.
    StopMaster,
    /// `--stop-daemon backup`.
    StopBackup,
}

/// What the words of an `ipvs` line mean.
#[derive(Debug, PartialEq, Drop)]
pub enum Line {
    /// A command that changes tables, timeouts or daemons.
    Edit(Command),
    /// `-L`, `-L -c` or `-S`.
    Show(Shown),
}
