#![tactic(auto)]

pub mod address;
pub mod memory;
#[cfg(test)]
mod tests;
