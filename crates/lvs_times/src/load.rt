//! What is measured: how many entries, and in which order their deadlines come.

/// How many timeouts take turns. The entries come in during as many moments as there are left of
/// ten, so that a tenth of them is due at each moment from 60 to 69.
#[derive(Clone, Copy, Debug, PartialEq, Eq)]
pub(crate) enum Timeouts {
    /// The deadlines never fall.
    One,
    /// Every other deadline is five seconds later.
    Two,
    /// Each deadline is a second later than the last one, and the tenth begins anew.
    Ten,
}

/// So many entries with such timeouts.
#[derive(Clone, Copy, Debug, PartialEq, Eq)]
pub(crate) struct Load {
    pub(crate) count: u32,
    pub(crate) timeouts: Timeouts,
}
