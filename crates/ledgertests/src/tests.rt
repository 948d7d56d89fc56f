// Each list of calls is made line by line; a call that is refused or only asks leaves tip, coins and number kept.
mod form;
mod lists;
mod piles;

use crate::calls::{Answered, Call, changes, perform};
use crate::state::state_of;
use coins::coin::{Coin, Lock};
use coins::outpoint::Outpoint;
use coinsview::view::CoinsView;
use ledger::Ledger;
use std::alloc::Global;
use std::fmt::Display;
use std::test::Fail;
use views::condition::SpendCondition;

// Cells that hold something, so that a table shows whether it empties them.
const CELL: (Outpoint, Coin) = (
    Outpoint {
        id: [9; 32],
        index: 9,
    },
    Coin {
        value: 9,
        lock: Lock {
            kind: 9,
            argument: 9,
        },
        height: 9,
        coinbase: true,
    },
);

// A test's failure, with what was looked at, where it does not hold.
fn check<D: Display + Drop>(holds: bool, what: D) -> Result<(), Fail> {
    if holds {
        return Ok(());
    }
    Err(Fail::new(what))
}

// Makes one call, of the given line of a list; the first is line 1.
fn call_agrees<V: CoinsView, C: SpendCondition>(
    heap: Global,
    ledger: &mut Ledger<V, C>,
    blocks: &[Vec<u8>],
    number: usize,
    call: Call,
    answer: Answered,
) -> Result<(), Fail>
    requires { V.CoinsView.ok ledger.old.state.view }
    ensures { V.CoinsView.ok ledger.new.state.view }
{
    let before = state_of(heap, ledger)?;
    let found = perform(ledger, blocks, call);
    check(
        found == answer,
        format_args!("line {number}: {found:?}, and not {answer:?}"),
    )?;
    if !changes(call, answer) {
        check(
            before == state_of(heap, ledger)?,
            format_args!("line {number}: changed"),
        )?;
    }
    Ok(())
}

// Makes the calls of a list in order.
fn agrees<V: CoinsView, C: SpendCondition>(
    heap: Global,
    ledger: &mut Ledger<V, C>,
    blocks: &[Vec<u8>],
    list: &[(Call, Answered)],
) -> Result<(), Fail>
    requires { V.CoinsView.ok ledger.old.state.view }
    ensures { V.CoinsView.ok ledger.new.state.view }
{
    for (number, (call, answer)) in (1usize..).zip(list) {
        call_agrees(heap, ledger, blocks, number, *call, *answer)?;
    }
    Ok(())
}
