// Why a call is refused: the reason with its number, word and layer, and the place of the fault.
#![tactic(auto)]

ghost use Rattle.std.specs.Prelude.{◌≡◌};
ghost use Rattle.refusal.specs.Numbers.{number_of, word_of, layer_of};
ghost use Rattle.refusal.specs.Placed.{placed};

// The part of the product that found the fault.
#[derive(Clone, Copy, PartialEq, Eq, Debug)]
pub enum Layer {
    Script,
    File,
    Form,
    Block,
    Transaction,
    Input,
    View,
    Ledger,
}

#[derive(Clone, Copy, PartialEq, Eq, Debug)]
pub enum Reason {
    Cut,
    LongForm,
    OverCount,
    Tail,
    OverSize,
    FileOverSize,
    FileCut,
    BadLine,
    Ended,
    Short,
    Parent,
    LastHeight,
    LogFull,
    NoCoinbase,
    Claim,
    Coinbase2,
    CbData,
    NoInput,
    NoOutput,
    Money,
    Under,
    Null,
    Missing,
    Immature,
    Shut,
    Exists,
    Full,
    Nothing,
    Parameter,
    NotEmpty,
    Started,
    NotStarted,
}

// A reason with its place: an offset and 0, a line and 0, a transaction and its input or output, or 0 and 0. Two numbers,
// since two are printed whatever the reason.
#[derive(Clone, Copy, PartialEq, Eq, Debug)]
pub struct Refusal {
    pub reason: Reason,
    pub first: u64,
    pub second: u64,
}

// A reason whose fault has no place.
impl From<Reason> for Refusal {
    ghost from_gives = { λ reason r. r ≡ placed reason 0 0 };

    fn from(reason: Reason) -> Refusal {
        reason.at(0, 0)
    }
}

impl Reason {
    // The refusal for this reason at a place.
    pub fn at(self, first: usize, second: usize) -> Refusal
        ensures { result ≡ placed self first second }
    {
        Refusal {
            reason: self,
            first: first as u64,
            second: second as u64,
        }
    }

    // The one place where the numbers stand. Two reasons have one number, so they cannot be the variants' own.
    pub fn number(self) -> u8
        ensures { result ≡ number_of self }
    {
        match self {
            Reason::Cut => 1,
            Reason::LongForm => 2,
            Reason::OverCount => 3,
            Reason::Tail => 4,
            Reason::OverSize => 5,
            Reason::FileOverSize => 5,
            Reason::FileCut => 6,
            Reason::BadLine => 7,
            Reason::Ended => 8,
            Reason::Short => 9,
            Reason::Parent => 10,
            Reason::LastHeight => 11,
            Reason::LogFull => 12,
            Reason::NoCoinbase => 13,
            Reason::Claim => 14,
            Reason::Coinbase2 => 20,
            Reason::CbData => 21,
            Reason::NoInput => 22,
            Reason::NoOutput => 23,
            Reason::Money => 24,
            Reason::Under => 25,
            Reason::Null => 26,
            Reason::Missing => 30,
            Reason::Immature => 31,
            Reason::Shut => 32,
            Reason::Exists => 33,
            Reason::Full => 34,
            Reason::Nothing => 40,
            Reason::Parameter => 41,
            Reason::NotEmpty => 42,
            Reason::Started => 43,
            Reason::NotStarted => 44,
        }
    }

    pub fn word(self) -> &'static str
        ensures { result.now ≡ word_of self }
    {
        match self {
            Reason::Cut => "cut",
            Reason::LongForm => "longform",
            Reason::OverCount => "overcount",
            Reason::Tail => "tail",
            Reason::OverSize => "oversize",
            Reason::FileOverSize => "oversize",
            Reason::FileCut => "filecut",
            Reason::BadLine => "line",
            Reason::Ended => "ended",
            Reason::Short => "short",
            Reason::Parent => "parent",
            Reason::LastHeight => "lastheight",
            Reason::LogFull => "logfull",
            Reason::NoCoinbase => "nocoinbase",
            Reason::Claim => "claim",
            Reason::Coinbase2 => "coinbase2",
            Reason::CbData => "cbdata",
            Reason::NoInput => "noinput",
            Reason::NoOutput => "nooutput",
            Reason::Money => "money",
            Reason::Under => "below",
            Reason::Null => "null",
            Reason::Missing => "missing",
            Reason::Immature => "immature",
            Reason::Shut => "shut",
            Reason::Exists => "exists",
            Reason::Full => "full",
            Reason::Nothing => "nothing",
            Reason::Parameter => "parameter",
            Reason::NotEmpty => "notempty",
            Reason::Started => "started",
            Reason::NotStarted => "notstarted",
        }
    }

    pub fn layer(self) -> Layer
        ensures { result ≡ layer_of self }
    {
        match self {
            Reason::BadLine => Layer::Script,
            Reason::FileOverSize | Reason::FileCut | Reason::Ended => Layer::File,
            Reason::Cut
            | Reason::LongForm
            | Reason::OverCount
            | Reason::Tail
            | Reason::OverSize
            | Reason::Short => Layer::Form,
            Reason::Parent
            | Reason::LastHeight
            | Reason::LogFull
            | Reason::NoCoinbase
            | Reason::Claim => Layer::Block,
            Reason::Coinbase2
            | Reason::CbData
            | Reason::NoInput
            | Reason::NoOutput
            | Reason::Money
            | Reason::Under
            | Reason::Null => Layer::Transaction,
            Reason::Missing | Reason::Immature | Reason::Shut => Layer::Input,
            Reason::Exists | Reason::Full => Layer::View,
            Reason::Nothing
            | Reason::Parameter
            | Reason::NotEmpty
            | Reason::Started
            | Reason::NotStarted => Layer::Ledger,
        }
    }
}
