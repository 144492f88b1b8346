#![tactic(auto)]

mod arrival;
mod bits;
pub mod board;
mod chip;
mod copying;
mod counters;
mod descriptor;
mod ending;
mod host;
mod opening;
mod registers;
mod round;
mod runs;
mod storing;
