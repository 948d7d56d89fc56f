// The example at the edge: a coin of the base is spent and replaced, and the other spent too.
ghost use Rattle.std.specs.Prelude.{◌≡◌, Some, None, Ok};
ghost use Rattle.coins.specs.declared.coin.Coin.{Coin};
ghost use Rattle.coinsview.specs.Meaning.{coin_at, without, put_answer, put_map};

use coins::coin::Coin;
use coins::outpoint::Outpoint;
use coinsview::fault::ViewFault;
use coinsview::view::CoinsView;

// What the two takes of `spend_and_answer` found, and what the put between them answered.
#[derive(Drop)]
pub struct SpentTwice {
    pub first: Option<Coin>,
    pub put: Result<(), ViewFault>,
    pub second: Option<Coin>,
}

// Takes the coin of an outpoint, puts another there, takes that, and flushes: the base has none there, and is otherwise
// as the map was. It stands beside the next for callers that need no answers: one function has one result.
pub fn spend_twice<V: CoinsView>(view: &mut V, at: &Outpoint, other: Coin)
    requires { V.CoinsView.ok view.old }
    ensures well { V.CoinsView.ok view.new }
    ensures map { V.CoinsView.coins view.new ≡ without at.now (V.CoinsView.coins view.old) }
    ensures bottom { V.CoinsView.bottom view.new ≡ without at.now (V.CoinsView.coins view.old) }
    ensures none { coin_at at.now (V.CoinsView.bottom view.new) ≡ None }
{
    let _ = spend_and_answer(view, at, other);
}

// The same, with what each call answered: where there was a coin, the put is granted, and the second take finds the other coin.
pub fn spend_and_answer<V: CoinsView>(view: &mut V, at: &Outpoint, other: Coin) -> SpentTwice
    requires { V.CoinsView.ok view.old }
    ensures well { V.CoinsView.ok view.new }
    ensures fixed { V.CoinsView.most view.new ≡ V.CoinsView.most view.old }
    ensures first { result.first ≡ coin_at at.now (V.CoinsView.coins view.old) }
    ensures put { result.put ≡ put_answer (V.CoinsView.most view.old) at.now (without at.now (V.CoinsView.coins view.old)) }
    ensures second { result.second ≡ coin_at at.now (put_map result.put at.now other (without at.now (V.CoinsView.coins view.old))) }
    ensures edge { (c : Coin) → coin_at at.now (V.CoinsView.coins view.old) ≡ Some c → result ≡ record { first = Some c; put = Ok tt; second = Some other } }
    ensures map { V.CoinsView.coins view.new ≡ without at.now (V.CoinsView.coins view.old) }
    ensures bottom { V.CoinsView.bottom view.new ≡ without at.now (V.CoinsView.coins view.old) }
    ensures none { coin_at at.now (V.CoinsView.bottom view.new) ≡ None }
{
    let first = view.take(at);
    let put = view.put(*at, other);
    let second = view.take(at);
    view.flush();
    SpentTwice { first, put, second }
}
