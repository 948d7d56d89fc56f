// The command that a line of a script is, decided by its first character.
ghost use Rattle.std.specs.Prelude.{◌≡◌, ◌≤◌, Some, None, MatchOption};
ghost use Rattle.script.specs.Commands.{value_after, after_digits, numeral_of, operand_of, whole, start_of, balance_of, command_of};
ghost use Rattle.script.specs.Forms.{ReadsEachForm};

// What a line asks for. The script rests on nothing, so a start has its three numbers here and not the ledger's parameters.
#[derive(Clone, Copy, PartialEq, Eq, Debug)]
pub enum Command {
    Start {
        halving: u64,
        maturity: u64,
        last: u64,
    },
    Connect,
    Disconnect,
    Balance {
        kind: u8,
        argument: u64,
    },
}

// The number that the digits at the front write, and what stands after them. None where it needs more than 64 bits. In one pass: by
// `take_while` and the text's `parse`, which read the digits three times, a line took 1.7 times as long.
fn digits(bytes: &[u8]) -> Option<(u64, &[u8])>
    ensures { MatchOption result (18446744073709551616 ≤ value_after 0 bytes.now) (λ p. (p.0 ≡ value_after 0 bytes.now) × (p.1.now ≡ after_digits bytes.now)) }
{
    let mut value = 0u64;
    for (i, byte) in bytes.iter().enumerate() {
        if !byte.is_ascii_digit() {
            return Some((value, &bytes[i..]));
        }
        value = value.checked_mul(10)?.checked_add(u64::from(*byte - b'0'))?;
    }
    Some((value, &[]))
}

// The same, where there is a digit.
fn numeral(bytes: &[u8]) -> Option<(u64, &[u8])>
    ensures { MatchOption result (numeral_of bytes.now ≡ None) (λ p. numeral_of bytes.now ≡ Some (p.0, p.1.now)) }
{
    if !bytes.first()?.is_ascii_digit() {
        return None;
    }
    digits(bytes)
}

// One space and a number of at least one digit.
#[tactic(auto, unfolding(crate::specs::Commands::operand_of))]
fn operand(bytes: &[u8]) -> Option<(u64, &[u8])>
    ensures { MatchOption result (operand_of bytes.now ≡ None) (λ p. operand_of bytes.now ≡ Some (p.0, p.1.now)) }
{
    numeral(bytes.strip_prefix(b" ")?)
}

// The command, where nothing follows it.
fn finish(command: Command, rest: &[u8]) -> Option<Command>
    ensures { result ≡ whole rest.now command }
{
    rest.is_empty().then_some(command)
}

fn start(rest: &[u8]) -> Option<Command>
    ensures { result ≡ start_of rest.now }
{
    let (halving, rest) = operand(rest)?;
    let (maturity, rest) = operand(rest)?;
    let (last, rest) = operand(rest)?;
    finish(
        Command::Start {
            halving,
            maturity,
            last,
        },
        rest,
    )
}

fn balance(rest: &[u8]) -> Option<Command>
    ensures { result ≡ balance_of rest.now }
{
    let (kind, rest) = operand(rest)?;
    let kind = u8::try_from(kind).ok()?;
    let (argument, rest) = operand(rest)?;
    finish(Command::Balance { kind, argument }, rest)
}

// The command of a line, decided by its first character, or None where the line has no command's form.
#[tactic(auto, using(crate::proofs::Formed::each_form))]
pub fn parse_line(line: &[u8]) -> Option<Command>
    ensures value { result ≡ command_of line.now }
    ensures forms { ReadsEachForm }
{
    let (first, rest) = line.split_first()?;
    match char::from(*first) {
        's' => start(rest),
        '+' => finish(Command::Connect, rest),
        '-' => finish(Command::Disconnect, rest),
        '?' => balance(rest),
        _ => None,
    }
}
