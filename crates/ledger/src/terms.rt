// What a ledger is started with.
ghost use Rattle.std.specs.Prelude.{◌≤◌};

mod ranges;

// The halving interval, the maturity and the last height that a start asks for.
#[derive(Clone, Copy)]
pub struct Parameters {
    pub halving: u64,
    pub maturity: u64,
    pub last: u64,
}

// The same, each within its range.
#[derive(Clone, Copy)]
pub struct Terms {
    pub halving: u32,
    pub maturity: u32,
    pub last: u32,
    ghost ranges: { (1 ≤ halving) × (halving ≤ 210000) × (1 ≤ maturity) × (maturity ≤ 100) × (1 ≤ last) },
}
