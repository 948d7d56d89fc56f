// The plain table of a cache's entries.
#![tactic(auto)]

pub mod table;
