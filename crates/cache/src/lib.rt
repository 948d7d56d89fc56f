// A cache of 64 entries over any coins view.
#![tactic(auto)]

pub mod cache;
mod spill;
mod walk;
