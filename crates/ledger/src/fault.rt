// Why a call on the ledger is refused.
ghost use Rattle.std.specs.Prelude.{◌≡◌};
ghost use Rattle.ledger.specs.Refusals.{ledger_refusal};
ghost use Rattle.ledger.specs.declared.fault.LedgerFault.TheVariants.{Block as OfBlock};

use connecting::fault::BlockFault;
use refusal::{Reason, Refusal};

#[derive(Clone, Copy, PartialEq, Eq, Debug)]
pub enum LedgerFault {
    Nothing,
    Parameter,
    NotEmpty,
    Started,
    NotStarted,
    Block(BlockFault),
}

impl From<BlockFault> for LedgerFault {
    ghost from_gives = { λ f r. r ≡ OfBlock f };

    fn from(f: BlockFault) -> LedgerFault {
        LedgerFault::Block(f)
    }
}

// The reason and the place of the fault.
impl From<LedgerFault> for Refusal {
    ghost from_gives = { λ f r. r ≡ ledger_refusal f };

    fn from(f: LedgerFault) -> Refusal {
        match f {
            LedgerFault::Nothing => Reason::Nothing.into(),
            LedgerFault::Parameter => Reason::Parameter.into(),
            LedgerFault::NotEmpty => Reason::NotEmpty.into(),
            LedgerFault::Started => Reason::Started.into(),
            LedgerFault::NotStarted => Reason::NotStarted.into(),
            LedgerFault::Block(f) => f.into(),
        }
    }
}
