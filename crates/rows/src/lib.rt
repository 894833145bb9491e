//! Runs of a toolchain over files in memory, written as text and tried: the rows of a file of rows. `run_rows` is all
//! that a program of rows calls, with the toolchain that it tries.
#![tactic(auto)]

mod bytes;
mod changing;
mod difference;
mod ending;
mod fault;
mod line;
mod reading;
mod row;
mod row_sink;
mod running;
mod setting;
mod slow_sink;
mod stops;
mod toolchain;
mod trial;

pub use running::run_rows;
pub use toolchain::Toolchain;
