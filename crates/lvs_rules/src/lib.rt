//! The rules of the director, once, over any tables.
#![tactic(auto)]

mod binding;
mod clock;
mod director;
mod edits;
mod forwarding;
mod headers;
mod incoming;
mod known_connection;
mod learning;
mod new_connection;
mod outgoing;
mod overload;
mod packet;
mod persistence;
mod pick;
mod scheduling;
mod sending;
mod server_edits;
mod tables;
mod too_long;
mod view;

pub use binding::bound;
pub use director::take_item;
pub use learning::{is_of_template, key_in_record};
pub use overload::{reaches, relieved};
pub use tables::{Tables, Whole};
pub use view::{AS_THEY_ARE, Overload, View};
