// The coins view: its meaning, a flat table of coins in the caller's memory, and a quota over any view.
#![tactic(auto)]

pub mod fault;
pub mod laws;
pub mod quota;
pub mod table;
pub mod view;
