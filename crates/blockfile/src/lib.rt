// Block files: records of a length and a block, each handed out as a part of the file.
#![tactic(auto)]

pub mod fault;
pub mod file;
