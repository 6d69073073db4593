//! Why a call on the services was refused.

/// The cause of a refusal. Everything is as it was before the call.
#[derive(Clone, Copy, Debug, PartialEq, Eq)]
pub enum ServiceRefused {
    /// A service of that key is there.
    Exists,
    /// No service of that key is there.
    NoService,
    /// There was no memory.
    NoMemory,
}
