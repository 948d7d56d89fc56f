// The undo memory: what each standing block took and made, so that the block can be taken back.
#![tactic(auto)]

ghost use Rattle.std.specs.Prelude.{◌≡◌, replicate};
ghost use Rattle.undo.specs.declared.Record.TheVariants.{Mark};

mod chain;

use arrayvec::ArrayVec;
use coins::coin::Coin;
use coins::outpoint::Outpoint;

// One entry: the mark of a block with the identifier before it, a coin that was made, or one that was spent.
#[derive(Clone, Copy)]
pub enum Record {
    Mark([u8; 32]),
    Made(Outpoint, Coin),
    Spent(Outpoint, Coin),
}

// What an unused place holds. By hand, since a derive takes no variant with a field.
impl Default for Record {
    ghost is_default = { λ r. r ≡ Mark (replicate 32 0) };

    fn default() -> Record {
        Record::Mark([0; 32])
    }
}

// All entries are taken.
#[derive(Clone, Copy, PartialEq, Eq, Debug)]
pub struct LogFull;

// At most 512 entries, the oldest first. A block's entries follow its mark.
#[derive(Drop)]
pub struct Undo {
    records: ArrayVec<Record, 512>,
}
