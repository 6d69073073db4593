//! What calls on the servers answer.

/// The cause of a refusal. Everything is as it was before the call.
#[derive(Clone, Copy, Debug, PartialEq, Eq)]
pub enum DestRefused {
    /// A live server of that service, address and port is there.
    Exists,
    /// No live server of that service, address and port is there.
    NoDest,
    /// The lower threshold is above the upper one.
    Thresholds,
    /// There was no memory.
    NoMemory,
}

/// What became of a server that left its service.
#[derive(Clone, Copy, Debug, PartialEq, Eq)]
pub enum Removed {
    /// Nothing named it, and it is gone.
    Released,
    /// Connection entries or templates name it, and it stands in the trash.
    Trashed,
}
