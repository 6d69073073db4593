//! A report is judged legal exactly where it is the text of legal books: laws of the definitions.
#![tactic(auto)]

pub mod laws;
