//! Reads scripts, and says what their rounds are to do.
#![tactic(auto)]

mod actors;
mod counting;
mod generator;
mod items;
mod kinds;
mod packets;
mod planner;
mod reader;
mod round_lines;
mod script;
mod serial;
mod stop;
#[cfg(test)]
mod tests;
mod values;

pub use counting::count_items;
pub use generator::generate;
pub use planner::plan;
pub use script::read_script;
pub use serial::serial_items;
pub use stop::ScriptRefused;
