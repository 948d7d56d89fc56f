// What the effect of a block depends on beside the coins, and what a block comes to.
ghost use Rattle.std.specs.Prelude.{◌≡◌};
ghost use Rattle.connecting.specs.Rules.{added, Fit};

use std::ops::Add;

// The spend condition, at which height a block is applied, how old a coinbase's coin has to be to be spent, and the halving interval.
#[derive_where(Clone, Copy)]
pub struct Site<'a, C> {
    pub condition: &'a C,
    pub height: u32,
    pub maturity: u32,
    pub halving: u32,
}

// What a transaction or a block comes to: coins made and spent, the fees, and the value of the outputs that burn.
#[derive(Clone, Copy, Default)]
pub struct Sums {
    pub made: u64,
    pub spent: u64,
    pub fees: u64,
    pub burned: u64,
}

impl Add for Sums {
    type Output = Sums;

    ghost can_add = { Fit };

    ghost add_gives = { λ a b r. r ≡ added a b };

    fn add(self, other: Sums) -> Sums {
        Sums {
            made: self.made + other.made,
            spent: self.spent + other.spent,
            fees: self.fees + other.fees,
            burned: self.burned + other.burned,
        }
    }
}
