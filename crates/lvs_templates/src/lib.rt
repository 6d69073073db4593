//! Persistence templates, each with its count of controls.
#![tactic(auto)]

mod due;
mod gather;
mod maps;
mod row;
mod templates;
#[cfg(test)]
mod tests;

pub use due::Due;
pub use templates::Templates;
