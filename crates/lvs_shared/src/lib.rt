//! The threads' director: each bucket behind a lock of its own, and the board in a counted book.
#![tactic(auto)]

mod alone;
mod beginning;
mod chamber;
mod closing;
mod director;
mod name;
mod opening;
mod origin;
mod paired;
mod played;
mod seat;
mod stepping;

pub use chamber::Chamber;
pub use director::Director;
pub use name::RoundName;
pub use opening::Opening;
pub use origin::{Act, Opened};
pub use played::Played;
pub use seat::{Seat, Stepped};
