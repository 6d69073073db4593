//! How often each answer came, so that a reader sees what the scripts reach.
use lvs_types::{Learnt, Reply, Snapshot};

/// Counts of scripts, of answers, and of what the directors had at once at the most.
#[derive(Clone, Copy, Debug, Default)]
pub(crate) struct Tally {
    scripts: u64,
    items: u64,
    forwarded: u64,
    outward: u64,
    passed: u64,
    dropped: u64,
    edited: u64,
    refused: u64,
    learnt: u64,
    not_learnt: u64,
    bad_messages: u64,
    swept: u64,
    reaped: u64,
    sent: u64,
    most_entries: usize,
    most_templates: usize,
}

/// One more.
fn raise(count: &mut u64) {
    *count = count.saturating_add(1);
}

impl Tally {
    /// Counts an answer.
    pub(crate) fn count_reply(&mut self, reply: &Reply) {
        raise(&mut self.items);
        match reply {
            Reply::Forward { .. } => raise(&mut self.forwarded),
            Reply::Outward(_) => raise(&mut self.outward),
            Reply::Pass => raise(&mut self.passed),
            Reply::Drop(_) => raise(&mut self.dropped),
            Reply::Done => raise(&mut self.edited),
            Reply::Refused(_) => raise(&mut self.refused),
            Reply::Learnt(Learnt::Accepted) => raise(&mut self.learnt),
            Reply::Learnt(_) => raise(&mut self.not_learnt),
            Reply::BadMessage(_) => raise(&mut self.bad_messages),
            Reply::Ticked => {}
            Reply::Swept(count) => self.swept = self.swept.saturating_add(*count),
            Reply::Reaped { templates, .. } => self.reaped = self.reaped.saturating_add(*templates),
            Reply::Sent(messages) => if !messages.as_slice().is_empty() {
                raise(&mut self.sent);
            },
        }
    }

    /// Counts what a director has.
    pub(crate) fn count_tables(&mut self, tables: &Snapshot) {
        self.most_entries = self.most_entries.max(tables.entries.as_slice().len());
        self.most_templates = self.most_templates.max(tables.templates.as_slice().len());
    }

    /// Counts a script.
    pub(crate) fn count_script(&mut self) {
        raise(&mut self.scripts);
    }
}
