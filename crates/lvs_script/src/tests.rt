//! Scripts and their plans, against what was written down by hand.
mod limits;
mod lines;
mod plans;
mod refusals;
