//! The schedulers sh and dh: the source or the destination address of a packet picks the server.
#![tactic(auto)]

mod element;
mod laws;
mod pick;
mod slot;
mod table;
#[cfg(test)]
mod tests;

pub use laws::owners_stand_in_sequence;
pub use pick::pick_slot;
pub use table::SlotTable;
