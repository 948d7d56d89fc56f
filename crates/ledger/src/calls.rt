// The calls on a ledger.
mod blocks;
mod readings;
mod start;
