//! The board: all that a director keeps but the entries.
#![tactic(auto)]

mod adding;
mod board;
mod candidates;
mod changing;
mod coming;
mod deciding;
mod desk;
mod entries;
mod holding;
mod item;
mod leaving;
mod lookups;
mod moving;
mod numbers;
mod pending;
mod placing;
mod reaping;
mod removing;
mod room;
mod servers;
mod services;
mod showing;
mod sweeping;
mod tables;
mod templates;

pub use board::Board;
