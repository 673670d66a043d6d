// Charts: the state chart of a controller as a transition source.
#![tactic(auto)]

pub mod chart;
pub mod fault;
mod filling;
mod opening;
mod reader;
mod reading;
mod row;
pub mod source;
mod tables;

pub use chart::Chart;
pub use fault::ChartFault;
pub use opening::words_are_read_one_way;
