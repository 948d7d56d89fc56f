// The faults of a block file.
ghost use Rattle.std.specs.Prelude.{◌≡◌};
ghost use Rattle.blockfile.specs.Faults.{file_refusal, peek_refusal};
ghost use Rattle.blockfile.specs.declared.fault.PeekFault.TheVariants.{File as OfFile, Form as OfForm};

use blockbytes::fault::FormFault;
use refusal::{Reason, Refusal};

// Why a block file gives no record; a cut record has its offset in the file.
#[derive(Clone, Copy, PartialEq, Eq, Debug)]
pub enum FileFault {
    OverSize,
    Cut { at: usize },
    Ended,
}

// Why a peek gives no identifiers.
#[derive(Clone, Copy, PartialEq, Eq, Debug)]
pub enum PeekFault {
    File(FileFault),
    Form(FormFault),
}

impl From<FileFault> for Refusal {
    ghost from_gives = { λ fault r. r ≡ file_refusal fault };

    fn from(fault: FileFault) -> Refusal {
        match fault {
            FileFault::OverSize => Reason::FileOverSize.into(),
            FileFault::Cut { at } => Reason::FileCut.at(at, 0),
            FileFault::Ended => Reason::Ended.into(),
        }
    }
}

impl From<PeekFault> for Refusal {
    ghost from_gives = { λ fault r. r ≡ peek_refusal fault };

    fn from(fault: PeekFault) -> Refusal {
        match fault {
            PeekFault::File(fault) => fault.into(),
            PeekFault::Form(fault) => fault.into(),
        }
    }
}

impl From<FileFault> for PeekFault {
    ghost from_gives = { λ f r. r ≡ OfFile f };

    fn from(fault: FileFault) -> PeekFault {
        PeekFault::File(fault)
    }
}

impl From<FormFault> for PeekFault {
    ghost from_gives = { λ f r. r ≡ OfForm f };

    fn from(fault: FormFault) -> PeekFault {
        PeekFault::Form(fault)
    }
}
