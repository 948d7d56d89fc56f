// What a coinbase may claim beside the fees.
ghost use Rattle.std.specs.Prelude.{◌≡◌, ◌≤◌};
ghost use Rattle.connecting.specs.Subsidy.{subsidy_at};

// The subsidy at a height: 5,000,000,000 halved, fractions dropped, once for each full interval in the height.
pub fn subsidy(interval: u32, height: u32) -> u64
    ensures { result ≡ subsidy_at interval height }
{
    let halvings = height.checked_div(interval).unwrap_or(0);
    5_000_000_000u64.checked_shr(halvings).unwrap_or(0)
}
