// A ledger over any coins view and any spend condition.
#![tactic(auto)]

ghost use Rattle.std.specs.Prelude.{◌≤◌};

mod calls;
pub mod examples;
pub mod fault;
pub mod runs;
pub mod terms;

use crate::terms::Terms;
use unwinding::chainstate::Chainstate;

// The last connected block, or the start: its identifier and height.
#[derive(Clone, Copy, PartialEq, Eq, Debug)]
pub struct Tip {
    pub id: [u8; 32],
    pub height: u32,
}

// What an accepted block did: its height, the coins made and spent, the fees, and the value burned.
#[derive(Clone, Copy, PartialEq, Eq, Debug)]
pub struct Connected {
    pub height: u32,
    pub made: u64,
    pub spent: u64,
    pub fees: u64,
    pub burned: u64,
}

// Whether taking a block back found the coins as the block had left them.
#[derive(Clone, Copy, PartialEq, Eq, Debug)]
pub enum Outcome {
    Clean,
    Unclean,
}

// A block taken back: its height, and whether that went clean.
#[derive(Clone, Copy, PartialEq, Eq, Debug)]
pub struct Disconnected {
    pub height: u32,
    pub outcome: Outcome,
}

// The coins of one lock: how many, and what they are worth together.
#[derive(Clone, Copy, PartialEq, Eq, Debug)]
pub struct Balance {
    pub coins: u64,
    pub value: u64,
}

// The blocks that stand: what the ledger was started with, the tip, and how many of the newest have their undo entries.
#[derive(Clone, Copy)]
struct ActiveChain {
    terms: Terms,
    tip: Tip,
    kept: u32,
    ghost counts: { kept ≤ tip.height },
}

// A ledger has an active chain once it is started.
#[derive(Drop)]
pub struct Ledger<V, C> {
    state: Chainstate<V>,
    condition: C,
    active: Option<ActiveChain>,
}
