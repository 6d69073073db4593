//! The tables as they are, or as they would be once an entry had ended.
use lvs_types::{DestId, Entry};

/// A server and whether it would be overloaded.
#[derive(Clone, Copy)]
pub struct Overload {
    pub server: DestId,
    pub overloaded: bool,
}

/// How a scheduler looks at the tables.
#[derive(Clone, Copy)]
pub struct View {
    /// The entry, as it stands in the tables, that is looked at as if it had ended.
    pub ended: Option<Entry>,
    /// What would then hold of its server.
    pub overload: Option<Overload>,
}

/// The tables as they are.
pub const AS_THEY_ARE: View = View {
    ended: None,
    overload: None,
};
