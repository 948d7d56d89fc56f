// Why a block is refused, layer by layer. A fault keeps its number, place and layer on its way up.
ghost use Rattle.std.specs.Prelude.{◌≡◌};
ghost use Rattle.connecting.specs.Refusals.{input_reason, transaction_refusal, block_refusal};
ghost use Rattle.connecting.specs.declared.fault.InputFault.TheVariants.{View as OfView};
ghost use Rattle.connecting.specs.declared.fault.BlockFault.TheVariants.{Form as OfForm};

use blockform::fault::FormFault;
use coinsview::fault::ViewFault;
use refusal::{Reason, Refusal};

// Why an input is not spent, or an output not made.
#[derive(Clone, Copy, PartialEq, Eq, Debug)]
pub enum InputFault {
    Missing,
    Immature,
    Shut,
    View(ViewFault),
}

// Why a transaction is refused; `output`, `input` and `item` are places among its outputs or inputs.
#[derive(Clone, Copy, PartialEq, Eq, Debug)]
pub enum TransactionFault {
    Coinbase2,
    CbData,
    NoInput,
    NoOutput,
    Money { output: usize },
    Under,
    Null { input: usize },
    Item { item: usize, fault: InputFault },
}

#[derive(Clone, Copy, PartialEq, Eq, Debug)]
pub enum BlockFault {
    Form(FormFault),
    Parent,
    LastHeight,
    LogFull,
    NoCoinbase,
    Claim,
    Transaction {
        transaction: usize,
        fault: TransactionFault,
    },
}

impl From<ViewFault> for InputFault {
    ghost from_gives = { λ f r. r ≡ OfView f };

    fn from(f: ViewFault) -> InputFault {
        InputFault::View(f)
    }
}

impl From<FormFault> for BlockFault {
    ghost from_gives = { λ f r. r ≡ OfForm f };

    fn from(f: FormFault) -> BlockFault {
        BlockFault::Form(f)
    }
}

impl From<InputFault> for Reason {
    ghost from_gives = { λ f r. r ≡ input_reason f };

    fn from(f: InputFault) -> Reason {
        match f {
            InputFault::Missing => Reason::Missing,
            InputFault::Immature => Reason::Immature,
            InputFault::Shut => Reason::Shut,
            InputFault::View(f) => Reason::from(f),
        }
    }
}

impl TransactionFault {
    // The refusal, for the transaction at place `t` of its block: no conversion, since the place has to be given.
    pub fn refusal(self, t: usize) -> Refusal
        ensures { result ≡ transaction_refusal t self }
    {
        match self {
            TransactionFault::Coinbase2 => Reason::Coinbase2.at(t, 0),
            TransactionFault::CbData => Reason::CbData.at(t, 0),
            TransactionFault::NoInput => Reason::NoInput.at(t, 0),
            TransactionFault::NoOutput => Reason::NoOutput.at(t, 0),
            TransactionFault::Money { output } => Reason::Money.at(t, output),
            TransactionFault::Under => Reason::Under.at(t, 0),
            TransactionFault::Null { input } => Reason::Null.at(t, input),
            TransactionFault::Item { item, fault } => Reason::from(fault).at(t, item),
        }
    }
}

impl From<BlockFault> for Refusal {
    ghost from_gives = { λ f r. r ≡ block_refusal f };

    fn from(f: BlockFault) -> Refusal {
        match f {
            BlockFault::Form(f) => f.into(),
            BlockFault::Parent => Reason::Parent.into(),
            BlockFault::LastHeight => Reason::LastHeight.into(),
            BlockFault::LogFull => Reason::LogFull.into(),
            BlockFault::NoCoinbase => Reason::NoCoinbase.into(),
            BlockFault::Claim => Reason::Claim.into(),
            BlockFault::Transaction { transaction, fault } => fault.refusal(transaction),
        }
    }
}
