// Spend conditions: whether a witness opens a lock at a height.
ghost use Rattle.std.specs.Prelude.{◌≡◌, ℕ, Bool, ◌||◌, List};
ghost use Rattle.coins.specs.declared.coin.Lock.{Lock};
ghost use Rattle.views.specs.Conditions.{badge_opens, clock_opens};

use coins::coin::Lock;

// One yes or no for each lock, witness and height, the same at every asking.
pub trait SpendCondition {
    ghost opens: { Self → Lock → List ℕ → ℕ → Bool };

    fn opens(&self, lock: &Lock, witness: &[u8], height: u32) -> bool
        ensures { result ≡ opens self.now lock.now witness.now height };
}

// Opens a lock of kind 1 to the 8 bytes of its argument, least byte first.
#[derive(Clone, Copy, PartialEq, Eq, Debug)]
pub struct Badge;

impl Badge {
    // The kind of lock that a badge opens. A kind is any byte, so it stays a number with names for two.
    pub const KIND: u8 = 1;
}

impl SpendCondition for Badge {
    ghost opens = { λ _. badge_opens };

    fn opens(&self, lock: &Lock, witness: &[u8], _height: u32) -> bool {
        lock.kind == Badge::KIND && witness == lock.argument.to_le_bytes().as_slice()
    }
}

// Opens a lock of kind 2 to no witness, from the height of its argument on.
#[derive(Clone, Copy, PartialEq, Eq, Debug)]
pub struct Clock;

impl Clock {
    // The kind of lock that a clock opens.
    pub const KIND: u8 = 2;
}

impl SpendCondition for Clock {
    ghost opens = { λ _. clock_opens };

    fn opens(&self, lock: &Lock, witness: &[u8], height: u32) -> bool {
        lock.kind == Clock::KIND && witness.is_empty() && lock.argument <= u64::from(height)
    }
}

// Opens where one of two conditions does.
#[derive(Clone, Copy, PartialEq, Eq, Debug)]
pub struct Either<A, B> {
    pub first: A,
    pub second: B,
}

impl<A: SpendCondition, B: SpendCondition> SpendCondition for Either<A, B> {
    ghost opens = { λ s l w h. A.SpendCondition.opens s.first l w h || B.SpendCondition.opens s.second l w h };

    fn opens(&self, lock: &Lock, witness: &[u8], height: u32) -> bool {
        self.first.opens(lock, witness, height) || self.second.opens(lock, witness, height)
    }
}
