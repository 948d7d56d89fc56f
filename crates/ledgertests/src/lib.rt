// Tests of the ledger and of the block form: lists of calls with the answer that each must give, and the blocks for them.
#![tactic(auto)]

#[cfg(test)]
mod block;
#[cfg(test)]
mod calls;
#[cfg(test)]
mod state;
#[cfg(test)]
mod tests;
