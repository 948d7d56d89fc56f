// The faults of a block's form.
ghost use Rattle.std.specs.Prelude.{◌≡◌};
ghost use Rattle.blockbytes.specs.Faults.{form_refusal};

use refusal::{Reason, Refusal};

// What is wrong with a block, and the offset at which the field or the tail at fault begins.
#[derive(Clone, Copy, PartialEq, Eq, Debug)]
pub enum FormFault {
    Cut { at: usize },
    LongForm { at: usize },
    OverCount { at: usize },
    Tail { at: usize },
    OverSize,
}

impl From<FormFault> for Refusal {
    ghost from_gives = { λ fault r. r ≡ form_refusal fault };

    fn from(fault: FormFault) -> Refusal {
        match fault {
            FormFault::Cut { at } => Reason::Cut.at(at, 0),
            FormFault::LongForm { at } => Reason::LongForm.at(at, 0),
            FormFault::OverCount { at } => Reason::OverCount.at(at, 0),
            FormFault::Tail { at } => Reason::Tail.at(at, 0),
            FormFault::OverSize => Reason::OverSize.into(),
        }
    }
}
