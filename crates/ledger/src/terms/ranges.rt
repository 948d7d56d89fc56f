// The ranges of what a ledger is started with.
ghost use Rattle.std.specs.Prelude.{◌≡◌, true, false, MatchResult};
ghost use Rattle.ledger.specs.Starting.{in_range};
ghost use Rattle.ledger.specs.declared.fault.LedgerFault.TheVariants.{Parameter};

use super::{Parameters, Terms};
use crate::fault::LedgerFault;

// The terms, unless one of the numbers is out of its range.
impl TryFrom<Parameters> for Terms {
    type Error = LedgerFault;

    ghost try_from_gives = { λ p r. MatchResult r (λ t. (in_range p ≡ true) × (t.halving ≡ p.halving) × (t.maturity ≡ p.maturity) × (t.last ≡ p.last)) (λ f. (in_range p ≡ false) × (f ≡ Parameter)) };

    fn try_from(parameters: Parameters) -> Result<Terms, LedgerFault> {
        let Parameters {
            halving,
            maturity,
            last,
        } = parameters;
        let in_range = (1..=210_000).contains(&halving)
            && (1..=100).contains(&maturity)
            && (1..=4_294_967_295).contains(&last);
        if !in_range {
            return Err(LedgerFault::Parameter);
        }
        Ok(Terms {
            halving: halving as u32,
            maturity: maturity as u32,
            last: last as u32,
        })
    }
}
