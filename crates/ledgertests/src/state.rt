// All that a ledger reads as: its tip, the number of blocks kept, and its coins in order.
use coins::coin::Coin;
use coins::outpoint::Outpoint;
use coinsview::view::CoinsView;
use ledger::{Ledger, Tip};
use std::alloc::{AllocError, Global};
use views::condition::SpendCondition;

// More coins than any view holds.
const MANY: usize = 4097;

#[derive(PartialEq, Drop)]
pub struct State {
    tip: Option<Tip>,
    kept: Option<u64>,
    pub coins: Vec<(Outpoint, Coin)>,
}

// The coins of a ledger, from the least outpoint to the greatest; none before the start.
fn coins_of<V: CoinsView, C: SpendCondition>(
    heap: Global,
    ledger: &mut Ledger<V, C>,
) -> Result<Vec<(Outpoint, Coin)>, AllocError>
    requires { V.CoinsView.ok ledger.old.state.view }
    ensures { V.CoinsView.ok ledger.new.state.view }
{
    let mut coins = Vec::new(heap);
    let mut last = None;
    for _ in 0..MANY {
        let Ok(Some(pair)) = ledger.next(last.as_ref()) else {
            return Ok(coins);
        };
        coins.push(pair)?;
        last = Some(pair.0);
    }
    Ok(coins)
}

// A settle that keeps all answers the number kept.
pub fn state_of<V: CoinsView, C: SpendCondition>(
    heap: Global,
    ledger: &mut Ledger<V, C>,
) -> Result<State, AllocError>
    requires { V.CoinsView.ok ledger.old.state.view }
    ensures { V.CoinsView.ok ledger.new.state.view }
{
    let coins = coins_of(heap, ledger)?;
    Ok(State {
        tip: ledger.tip().ok(),
        kept: ledger.settle(u64::MAX).ok(),
        coins,
    })
}
