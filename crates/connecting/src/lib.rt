// The rules of connecting a block: its faults, the subsidy, and what a block comes to.
#![tactic(auto)]

pub mod block;
pub mod fault;
pub mod subsidy;
