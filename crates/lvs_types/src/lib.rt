//! The plain types that every crate speaks of.
#![tactic(auto)]

mod addr;
mod book;
mod bucket;
mod capture;
mod command;
mod dest;
mod entry;
mod head;
mod icmp;
mod item;
mod listed;
mod memory;
mod pair;
mod program;
mod reply;
mod report;
mod script;
mod service;
mod settings;
mod snapshot;
mod status;
mod steps;
mod sync;
mod template;
#[cfg(test)]
mod tests;
pub mod worked_examples;

pub use addr::{Addr, DestId, TemplateId};
pub use book::{Noted, Placed, RoundBook, RoundPlan, Shown, ShownText};
pub use bucket::{Change, Found};
pub use capture::{Capture, CaptureCause, Frame};
pub use command::{Command, Line};
pub use dest::{Candidate, Dest, DestRow, DestSpec};
pub use entry::{Direction, Entry, Key, TcpState};
pub use head::{Head, Malformed};
pub use icmp::{IcmpAnswer, Side};
pub use item::Item;
pub use listed::{Bytes, Listed, Messages};
pub use memory::{Failed, NoMemory};
pub use pair::{MasterAct, MasterStep, PairEnd};
pub use program::ProgramCommand;
pub use reply::{DropCause, EditRefused, Reply};
pub use report::{ReportLine, Verdict};
pub use script::{Round, Script, ScriptCause, ScriptLine, SettingCause, WordsCause};
pub use service::{Cursor, Method, Proto, Scheduler, Service, ServiceKey};
pub use settings::{Daemons, Setting, Settings};
pub use snapshot::Snapshot;
pub use status::Status;
pub use steps::Steps;
pub use sync::{BadSync, Learnt, Message, SyncItem, SyncRecord};
pub use template::{Template, TemplateKey};
