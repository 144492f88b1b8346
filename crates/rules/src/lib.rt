#![tactic(auto)]

pub mod law;
pub mod state;
