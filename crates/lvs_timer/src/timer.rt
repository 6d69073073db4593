//! A deadline.
ghost use Rattle.std.specs.Prelude.{◌≡◌};
ghost use Rattle.lvs_timer.specs.Timers.{is_due as is_due_by};

/// An id that is armed, and the moment, in seconds, at which it is due. Timers are ordered by
/// deadline, and then by id.
#[derive(Clone, Copy, Debug, PartialEq, Eq, PartialOrd, Ord)]
pub struct Timer {
    pub deadline: u64,
    pub id: u64,
}

impl Timer {
    /// Whether its deadline is at or before `now`.
    pub(crate) fn is_due(&self, now: u64) -> bool
        ensures { result ≡ is_due_by now self.now }
    {
        self.deadline <= now
    }
}
