//! What an incoming packet meets.

/// How the entry of a packet's connection stands when the packet comes in.
#[derive(Clone, Copy, Debug, PartialEq, Eq)]
pub enum Standing {
    /// The packet begins a new connection in its place.
    Reused,
    /// Its server was removed.
    ServerGone,
    /// Its connection goes on.
    InUse,
}
