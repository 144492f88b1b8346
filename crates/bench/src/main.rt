//! A bench session from begin to end: frames come from the line, and the host takes and releases them.
#![tactic(auto)]

mod bench;
mod host;
mod line;
mod registers;
mod session;
mod stop;
mod table;

use crate::stop::Stop;

fn main(rt: HostRuntime) -> Result<(), Stop> {
    session::run(&rt)
}
