//! CRC vectors published elsewhere, through the proved register and through a second implementation.
#![tactic(auto)]

use anyhow::anyhow;

mod aal5;
mod conventions;
mod filters;
mod frames;
mod groups;
mod message;
mod random;
mod reflected;
mod report;
mod texts;
mod ways;

/// Compares every vector, and fails if any differs.
fn compare_all(rt: &HostRuntime) -> anyhow::Result<()> {
    let mut agreed = texts::compare(rt)?;
    agreed &= frames::compare(rt)?;
    agreed &= aal5::compare(rt)?;
    agreed &= groups::compare(rt)?;
    agreed &= filters::compare(rt)?;
    agreed &= random::compare(rt)?;
    if agreed {
        println!(rt; "all agree")?;
        Ok(())
    } else {
        Err(anyhow!("a vector differs"))
    }
}

fn main(rt: HostRuntime) -> anyhow::Result<()> {
    compare_all(&rt)
}
