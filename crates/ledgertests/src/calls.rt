// A call on a ledger and its answer, as plain values.
use crate::block::id;
use coins::coin::{Coin, Lock};
use coins::outpoint::Outpoint;
use coinsview::view::CoinsView;
use ledger::terms::Parameters;
use ledger::{Balance, Connected, Disconnected, Ledger, Outcome};
use refusal::{Reason, Refusal};
use views::condition::SpendCondition;

// A place among the coins: a transaction by the number of its identifier, and an output of it.
#[derive(Clone, Copy, PartialEq, Debug)]
pub struct Place {
    pub tx: u8,
    pub index: u32,
}

// Blocks go by their place in a list.
#[derive(Clone, Copy)]
pub enum Call {
    Start(Parameters),
    Connect(usize),
    Disconnect,
    Settle(u64),
    Flush,
    Tip,
    Look(Place),
    Next(Option<Place>),
    Balance(Lock),
}

// Identifiers by their last byte, a coin by its place and value.
#[derive(Clone, Copy, PartialEq, Debug)]
pub enum Answer {
    Done,
    Connected(Connected),
    Disconnected(Disconnected),
    Kept(u64),
    Tip { id: u8, height: u32 },
    Coin(Option<(Place, u64)>),
    Balance(Balance),
}

pub type Answered = Result<Answer, Refusal>;

pub const DONE: Answered = Ok(Answer::Done);

pub const NO_COIN: Answered = Ok(Answer::Coin(None));

// The calls and answers of a list, each on a line.
pub fn start(halving: u64, maturity: u64, last: u64) -> Call {
    Call::Start(Parameters {
        halving,
        maturity,
        last,
    })
}

pub fn look(tx: u8, index: u32) -> Call {
    Call::Look(Place { tx, index })
}

pub fn next(tx: u8, index: u32) -> Call {
    Call::Next(Some(Place { tx, index }))
}

pub fn balance(kind: u8, argument: u64) -> Call {
    Call::Balance(Lock { kind, argument })
}

pub fn connected(height: u32, made: u64, spent: u64, fees: u64, burned: u64) -> Answered {
    Ok(Answer::Connected(Connected {
        height,
        made,
        spent,
        fees,
        burned,
    }))
}

// Taken back, and it went clean.
pub fn disconnected(height: u32) -> Answered {
    Ok(Answer::Disconnected(Disconnected {
        height,
        outcome: Outcome::Clean,
    }))
}

pub fn kept(blocks: u64) -> Answered {
    Ok(Answer::Kept(blocks))
}

pub fn tip(id: u8, height: u32) -> Answered {
    Ok(Answer::Tip { id, height })
}

pub fn coin(tx: u8, index: u32, value: u64) -> Answered {
    Ok(Answer::Coin(Some((Place { tx, index }, value))))
}

pub fn worth(coins: u64, value: u64) -> Answered {
    Ok(Answer::Balance(Balance { coins, value }))
}

pub fn refused<T>(reason: Reason, first: u64, second: u64) -> Result<T, Refusal> {
    Err(Refusal {
        reason,
        first,
        second,
    })
}

fn outpoint(place: Place) -> Outpoint {
    Outpoint {
        id: id(place.tx),
        index: place.index,
    }
}

fn found(at: Outpoint, coin: Coin) -> (Place, u64) {
    let place = Place {
        tx: at.id[31],
        index: at.index,
    };
    (place, coin.value)
}

// The answer to a call.
pub fn perform<V: CoinsView, C: SpendCondition>(
    ledger: &mut Ledger<V, C>,
    blocks: &[Vec<u8>],
    call: Call,
) -> Answered
    requires { V.CoinsView.ok ledger.old.state.view }
    ensures { V.CoinsView.ok ledger.new.state.view }
{
    let answer = match call {
        Call::Start(parameters) => {
            ledger.start(parameters, &id(0))?;
            Answer::Done
        }
        Call::Connect(at) => {
            // A block past the end of the list has no bytes.
            let block = blocks.get(at).map_or(&[][..], |block| block.as_slice());
            Answer::Connected(ledger.connect(block)?)
        }
        Call::Disconnect => Answer::Disconnected(ledger.disconnect()?),
        Call::Settle(n) => Answer::Kept(ledger.settle(n)?),
        Call::Flush => {
            ledger.flush()?;
            Answer::Done
        }
        Call::Tip => {
            let tip = ledger.tip()?;
            Answer::Tip {
                id: tip.id[31],
                height: tip.height,
            }
        }
        Call::Look(place) => {
            let at = outpoint(place);
            Answer::Coin(ledger.look(&at)?.map(|coin| found(at, coin)))
        }
        Call::Next(place) => {
            let from = place.map(outpoint);
            Answer::Coin(
                ledger
                    .next(from.as_ref())?
                    .map(|(at, coin)| found(at, coin)),
            )
        }
        Call::Balance(lock) => Answer::Balance(ledger.balance(&lock)?),
    };
    Ok(answer)
}

// Whether the call changes what a ledger reads as, given this answer.
pub fn changes(call: Call, answer: Answered) -> bool {
    match call {
        Call::Start(_) | Call::Connect(_) | Call::Disconnect | Call::Settle(_) => answer.is_ok(),
        _ => false,
    }
}
