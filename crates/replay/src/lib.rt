// A script, performed line by line on a ledger and a block file.
#![tactic(auto)]

mod answer;
pub mod flat;
pub mod session;
pub mod text;
