// Outpoints with their order, locks and coins.
#![tactic(auto)]

pub mod coin;
pub mod equal;
pub mod outpoint;
