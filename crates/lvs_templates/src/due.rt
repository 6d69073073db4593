//! What became of the templates whose deadline was reached.
use lvs_types::Template;

/// The due templates that left, and how many were renewed.
#[derive(Debug, Drop)]
pub struct Due {
    /// Those that left, in order of id.
    pub gone: Vec<Template>,
    /// How many are held for 60 seconds more.
    pub renewed: u64,
}
