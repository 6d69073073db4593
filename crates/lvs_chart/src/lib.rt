//! A picture of a run: a report is read, its series are gathered, and one SVG is written.
#![tactic(auto)]

mod bars;
mod connections;
mod gathering;
mod legend;
mod listing;
mod marks;
mod panel;
mod picture;
mod replies;
mod run;
mod scale;
mod serving;
mod status;
mod style;
mod svg;

pub use gathering::gather;
pub use picture::draw_report;
pub use replies::{ReplyCounts, ReplyKind};
pub use run::{MAX_SERVERS, Point, Round, Run, Series};
pub use serving::serve_chart;
pub use status::{ChartStatus, exit_code, fault_line};

#[cfg(test)]
mod tests;
