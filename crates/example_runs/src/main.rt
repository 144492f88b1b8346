//! The bench examples as runs of the board, on a memory of bytes and on one of words.
#![tactic(auto)]

mod play;
mod step;
mod table;

use crate::play::{Difference, additions, six};
use crate::step::Example;
use crate::table::EXAMPLES;
use anyhow::anyhow;
use std::io;

// Prints what came of an example. Answers whether it is as the rules say.
fn say(rt: &impl Print, name: &str, on: &str, played: Result<(), Difference>) -> io::Result<bool> {
    match played {
        Ok(()) => println!(rt; "{name}{on}: as the rules say")?,
        Err(difference) => println!(rt; "{name}{on}: {difference}")?,
    }
    Ok(played.is_ok())
}

// Plays an example, a run on each memory.
fn show(rt: &impl Print, name: &str, example: Example) -> io::Result<bool> {
    match example {
        Example::Run(run) => {
            let bytes = say(rt, name, ", on bytes", run.on_bytes())?;
            let words = say(rt, name, ", on words", run.on_words())?;
            Ok(bytes && words)
        }
        Example::Six(bytes, outcome) => say(rt, name, "", six(bytes, outcome)),
        Example::Additions(buffers) => say(rt, name, "", additions(buffers)),
    }
}

// Plays every example, and fails where one differs.
fn run(rt: &impl Print) -> anyhow::Result<()> {
    let mut good = true;
    for (name, example) in EXAMPLES {
        good &= show(rt, name, example)?;
    }
    if good {
        Ok(())
    } else {
        Err(anyhow!("an example differs from the rules"))
    }
}

fn main(rt: HostRuntime) -> anyhow::Result<()> {
    run(&rt)
}
