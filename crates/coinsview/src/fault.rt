// Why a view refuses a put.
ghost use Rattle.std.specs.Prelude.{◌≡◌};
ghost use Rattle.coinsview.specs.Fault.{reason_of};

use refusal::Reason;

#[derive(Clone, Copy, PartialEq, Eq, Debug)]
pub enum ViewFault {
    // The outpoint has a coin.
    Exists,
    // The view holds as many coins as its capacity.
    Full,
}

impl From<ViewFault> for Reason {
    ghost from_gives = { λ f r. r ≡ reason_of f };

    fn from(fault: ViewFault) -> Reason {
        match fault {
            ViewFault::Exists => Reason::Exists,
            ViewFault::Full => Reason::Full,
        }
    }
}
