//! The lines of a script.
use lvs_types::ScriptCause;

/// A kind of line, by its first word.
#[derive(Clone, Copy, Debug, PartialEq, Eq)]
pub enum LineName {
    Local,
    At,
    Ipvs,
    Sysctl,
    Incoming,
    Outgoing,
    Sync,
    List,
    Conns,
    Save,
    Icmp,
}

/// A refused line.
#[derive(Clone, Copy, Debug, PartialEq, Eq)]
pub struct BadLine {
    /// Its number, from 1.
    pub line: u64,
    pub cause: ScriptCause,
}
