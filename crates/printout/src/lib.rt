// One line of the printout, and its text.
#![tactic(auto)]

ghost use Rattle.std.specs.Prelude.{◌≡◌, ◌++◌, Some, string_bytes, OnOk};
ghost use Rattle.printout.specs.Texts.{text_of, line_text, ReadsAsPrinted, OneLineEach};

use refusal::Refusal;
use std::alloc::AllocError;
use std::fmt;

// What a command of a script answers. A refusal is a variant like the others, since each is printed as a line.
#[derive(Clone, Copy, PartialEq, Eq, Debug)]
pub enum Line {
    Start,
    Connect {
        height: u32,
        made: u64,
        spent: u64,
        fee: u64,
        burned: u64,
    },
    Disconnect {
        height: u32,
        // Whether every undo entry found and restored its own coin.
        clean: bool,
    },
    Balance {
        kind: u8,
        argument: u64,
        coins: u64,
        value: u64,
    },
    Refused(Refusal),
}

impl fmt::Display for Line {
    ghost output = { λ x. Some (text_of x) };

    fn fmt<W: fmt::Write>(&self, f: &mut fmt::Formatter<W>) -> fmt::Result {
        match *self {
            Line::Start => write!(f, "start"),
            Line::Connect {
                height,
                made,
                spent,
                fee,
                burned,
            } => {
                write!(
                    f,
                    "connect {height} made {made} spent {spent} fee {fee} burned {burned}"
                )
            }
            Line::Disconnect {
                height,
                clean: true,
            } => write!(f, "disconnect {height} clean"),
            Line::Disconnect {
                height,
                clean: false,
            } => write!(f, "disconnect {height} unclean"),
            Line::Balance {
                kind,
                argument,
                coins,
                value,
            } => { write!(f, "balance {kind} {argument} coins {coins} value {value}") }
            Line::Refused(
                Refusal {
                    reason,
                    first,
                    second,
                },
            ) => {
                write!(
                    f,
                    "refused {} {} {first} {second}",
                    reason.number(),
                    reason.word()
                )
            }
        }
    }
}

// Appends the line and its LF.
pub fn append(out: &mut String, line: Line) -> Result<(), AllocError>
    ensures { OnOk result (string_bytes out.new ≡ string_bytes out.old ++ line_text line) }
{
    writeln!(out, "{line}")
}

// The theorem that the lines of a first lesson read as it prints them.
#[tactic(auto, using(crate::proofs::Free::as_printed))]
pub fn reads_as_printed()
    ensures { ReadsAsPrinted }
{}

// The theorem that the text of a line has no LF.
#[tactic(auto, using(crate::proofs::Free::one_line))]
pub fn one_line_each()
    ensures { OneLineEach }
{}
