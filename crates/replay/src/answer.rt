// The answer to each line of a script, as a line of the printout.
ghost use Rattle.std.specs.Prelude.{◌≡◌};
ghost use Rattle.ledger.specs.Refusals.{ledger_refusal};
ghost use Rattle.printout.specs.declared.Line.TheVariants.{Refused as RefusedLine};
ghost use Rattle.script.specs.Cuts.{held};
ghost use Rattle.replay.specs.PageTurns.{calls_for, line_for, turn_place, turn_calls, turn_line, PageTurn};
ghost use Rattle.replay.specs.Turns.{parsed, Turn, Moved};

use blockform::file::FileReader;
use coins::coin::Lock;
use coinsview::view::CoinsView;
use ledger::fault::LedgerFault;
use ledger::runs::{Answer, Call};
use ledger::terms::Parameters;
use ledger::{Ledger, Outcome};
use printout::Line;
use refusal::{Reason, Refusal};
use script::command::{Command, parse_line};
use views::condition::SpendCondition;

// The identifier that a ledger is started with.
const START_ID: [u8; 32] = [0; 32];

fn refused(fault: LedgerFault) -> Line
    ensures { result ≡ RefusedLine (ledger_refusal fault) }
{
    Line::Refused(Refusal::from(fault))
}

// Performs a command, by `Ledger::perform`, whose contract carries the laws over any list of calls. A '+' connects the block of the next record; the file moves past it, whatever the ledger answers.
fn perform<V: CoinsView, C: SpendCondition>(
    ledger: &mut Ledger<V, C>,
    file: &mut FileReader<'_>,
    command: Command,
) -> Line
    requires { V.CoinsView.ok ledger.old.state.view }
    ensures ok { V.CoinsView.ok ledger.new.state.view }
    ensures file { file.new.file.now ≡ file.old.file.now }
    ensures turn { Moved file.old.file.now file.old.place file.new.place ledger.old ledger.new result command }
    ensures page { PageTurn V.CoinsView C.SpendCondition file.old.file.now (calls_for file.old.file.now file.old.place command) (line_for file.old.file.now file.old.place command) result ledger.old ledger.new }
{
    let blocks = file.bytes();
    match command {
        Command::Start {
            halving,
            maturity,
            last,
        } => {
            let parameters = Parameters {
                halving,
                maturity,
                last,
            };
            let call = Call::Start {
                parameters,
                id: START_ID,
            };
            let Answer::Start(started) = ledger.perform(blocks, call) else {
                unreachable()
            };
            started.map_or_else(refused, |()| Line::Start)
        }
        Command::Connect => match file.next() {
            Ok(block) => {
                let to = file.place();
                let call = Call::Connect {
                    from: to - block.len(),
                    to,
                };
                let Answer::Connect(connected) = ledger.perform(blocks, call) else {
                    unreachable()
                };
                connected.map_or_else(
                    refused,
                    |done| Line::Connect {
                        height: done.height,
                        made: done.made,
                        spent: done.spent,
                        fee: done.fees,
                        burned: done.burned,
                    },
                )
            }
            Err(fault) => Line::Refused(fault.into()),
        },
        Command::Disconnect => {
            let Answer::Disconnect(disconnected) = ledger.perform(blocks, Call::Disconnect) else {
                unreachable()
            };
            disconnected.map_or_else(
                refused,
                |done| Line::Disconnect {
                    height: done.height,
                    clean: done.outcome == Outcome::Clean,
                },
            )
        }
        Command::Balance { kind, argument } => {
            let call = Call::Balance(Lock { kind, argument });
            let Answer::Balance(balance) = ledger.perform(blocks, call) else {
                unreachable()
            };
            balance.map_or_else(
                refused,
                |held| Line::Balance {
                    kind,
                    argument,
                    coins: held.coins,
                    value: held.value,
                },
            )
        }
    }
}

// Performs one line of the script, of the given number. A line that is no command asks neither file nor ledger.
pub fn answer_line<V: CoinsView, C: SpendCondition>(
    ledger: &mut Ledger<V, C>,
    file: &mut FileReader<'_>,
    number: u64,
    line: Option<&[u8]>,
) -> Line
    requires { V.CoinsView.ok ledger.old.state.view }
    ensures ok { V.CoinsView.ok ledger.new.state.view }
    ensures file { file.new.file.now ≡ file.old.file.now }
    ensures turn { Turn file.old.file.now number file.old.place file.new.place ledger.old ledger.new result (parsed (held line.entry)) }
    ensures place { file.new.place ≡ turn_place file.old.file.now file.old.place (parsed (held line.entry)) }
    ensures page { PageTurn V.CoinsView C.SpendCondition file.old.file.now (turn_calls file.old.file.now file.old.place (parsed (held line.entry))) (turn_line file.old.file.now number file.old.place (parsed (held line.entry))) result ledger.old ledger.new }
{
    match line.and_then(parse_line) {
        Some(command) => perform(ledger, file, command),
        None => Line::Refused(Refusal {
            reason: Reason::BadLine,
            first: number,
            second: 0,
        }),
    }
}
