// Locks and coins.
ghost use Rattle.std.specs.Prelude.{◌≤◌};

// The greatest value of a coin, and the greatest sum of a transaction's outputs.
pub const MAX_VALUE: u64 = 2_100_000_000_000_000;

// What has to be met to spend an output: a kind, which may be any byte, and an argument.
#[derive(Clone, Copy, PartialEq, Eq, Debug)]
pub struct Lock {
    pub kind: u8,
    pub argument: u64,
}

// An unspent output, with the height of its block and whether a coinbase made it. No coin is worth more than MAX_VALUE.
#[derive(Clone, Copy, Debug, PartialEq, Eq)]
pub struct Coin {
    pub value: u64,
    pub lock: Lock,
    pub height: u32,
    pub coinbase: bool,
    ghost money: { value ≤ 2100000000000000 },
}
