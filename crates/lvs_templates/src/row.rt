//! A template as the store keeps it, and what becomes of it when it is due.
ghost use Rattle.std.specs.Prelude.{◌≡◌, ◌<◌, ◌^◌};
ghost use Rattle.lvs_templates.specs.Rows.{leaves as leaves_by, is_renewed as is_renewed_by, renew as renew_by};

use lvs_types::Template;

/// For how long a due template stays that has controls, in seconds.
const RENEWAL: u64 = 60;

/// A template with its count of controls.
#[derive(Clone, Copy, Debug, PartialEq, Eq)]
pub struct TemplateRow {
    /// The template.
    pub template: Template,
    /// How many connection entries were made by it.
    pub controls: u64,
}

impl TemplateRow {
    /// Whether it is due and has no controls.
    pub(crate) fn leaves(&self, now: u64) -> bool
        ensures { result ≡ leaves_by now self.now }
    {
        self.template.deadline <= now && self.controls == 0
    }

    /// Whether it is due and has controls.
    pub(crate) fn is_renewed(&self, now: u64) -> bool
        ensures { result ≡ is_renewed_by now self.now }
    {
        self.template.deadline <= now && self.controls > 0
    }

    /// Sets the deadline of a due one that has controls.
    pub(crate) fn renew(&mut self, now: u64)
        requires { now < 2 ^ 63 }
        ensures { self.new ≡ renew_by now self.old }
    {
        if self.is_renewed(now) {
            self.template.deadline = now + RENEWAL;
        }
    }
}
