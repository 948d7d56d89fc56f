// The script of a run: its lines, and the command that a line is.
#![tactic(auto)]

pub mod command;
pub mod lines;
