// What is read of a ledger, and the flush.
ghost use Rattle.std.specs.Prelude.{◌≡◌, ◌*◌, ◌≤◌, true, Ok};
ghost use Rattle.std.specs.Option.{option_map};
ghost use Rattle.coinsview.specs.Meaning.{coin_at, next_in};
ghost use Rattle.ledger.specs.Book.{tip_of, coins_of, held_by, with_held};
ghost use Rattle.ledger.specs.Standing.{started, Early, Follows, Unchanged};

use crate::fault::LedgerFault;
use crate::{Balance, Ledger, Tip};
use coins::coin::{Coin, Lock};
use coins::outpoint::Outpoint;
use coinsview::view::CoinsView;
use views::condition::SpendCondition;

impl<V: CoinsView, C: SpendCondition> Ledger<V, C> {
    // Makes the base at the foot hold the coins.
    pub fn flush(&mut self) -> Result<(), LedgerFault>
        requires { V.CoinsView.ok self.old.state.view }
        ensures ok { V.CoinsView.ok self.new.state.view }
        ensures early { Early self.old self.new result }
        ensures law { Follows V.CoinsView C.SpendCondition self.old self.new result (λ k. k) (λ _. Ok tt) }
        ensures same { Unchanged V.CoinsView self.old self.new }
        ensures bottom { started self.old ≡ true → V.CoinsView.bottom self.new.state.view ≡ V.CoinsView.coins self.new.state.view }
    {
        self.active.ok_or(LedgerFault::NotStarted)?;
        self.state.view.flush();
        Ok(())
    }

    // The tip: its identifier and height.
    pub fn tip(&self) -> Result<Tip, LedgerFault>
        ensures early { Early self.now self.now result }
        ensures law { Follows V.CoinsView C.SpendCondition self.now self.now result (λ k. k) (λ k. Ok (tip_of k)) }
    {
        Ok(self.active.ok_or(LedgerFault::NotStarted)?.tip)
    }

    // The coin at an outpoint.
    pub fn look(&mut self, at: &Outpoint) -> Result<Option<Coin>, LedgerFault>
        requires { V.CoinsView.ok self.old.state.view }
        ensures ok { V.CoinsView.ok self.new.state.view }
        ensures early { Early self.old self.new result }
        ensures law { Follows V.CoinsView C.SpendCondition self.old self.new result (λ k. k) (λ k. Ok (coin_at at.now (coins_of k))) }
        ensures same { Unchanged V.CoinsView self.old self.new }
    {
        self.active.ok_or(LedgerFault::NotStarted)?;
        Ok(self.state.view.look(at))
    }

    // How many coins a lock has, and what they are worth.
    pub fn balance(&mut self, lock: &Lock) -> Result<Balance, LedgerFault>
        requires { V.CoinsView.ok self.old.state.view }
        ensures ok { V.CoinsView.ok self.new.state.view }
        ensures early { Early self.old self.new result }
        ensures law { Follows V.CoinsView C.SpendCondition self.old self.new result (λ k. k) (λ k. Ok (held_by lock.now (coins_of k))) }
        ensures same { Unchanged V.CoinsView self.old self.new }
    {
        self.active.ok_or(LedgerFault::NotStarted)?;
        Ok(balance_of(&mut self.state.view, lock))
    }

    // The least outpoint above the given one, or of all, with its coin.
    pub fn next(&mut self, from: Option<&Outpoint>) -> Result<Option<(Outpoint, Coin)>, LedgerFault>
        requires { V.CoinsView.ok self.old.state.view }
        ensures ok { V.CoinsView.ok self.new.state.view }
        ensures early { Early self.old self.new result }
        ensures law { Follows V.CoinsView C.SpendCondition self.old self.new result (λ k. k) (λ k. Ok (next_in (option_map (λ x. x.now) from.entry) (coins_of k))) }
        ensures same { Unchanged V.CoinsView self.old self.new }
    {
        self.active.ok_or(LedgerFault::NotStarted)?;
        Ok(self.state.view.next(from))
    }
}

// The balance with a coin more, if it is the lock's.
fn with_coin(balance: Balance, coin: Coin, lock: &Lock) -> Balance
    requires { (balance.coins ≤ 4095) × (balance.value ≤ 2100000000000000 * 4095) }
    ensures { result ≡ with_held lock.now coin balance }
{
    if coin.lock != *lock {
        return balance;
    }
    Balance {
        coins: balance.coins + 1,
        value: balance.value + coin.value,
    }
}

// Walks the coins in the order of their outpoints, and adds up those of a lock.
fn balance_of<V: CoinsView>(view: &mut V, lock: &Lock) -> Balance
    requires { V.CoinsView.ok view.old }
    ensures well { V.CoinsView.ok view.new }
    ensures fixed { V.CoinsView.most view.new ≡ V.CoinsView.most view.old }
    ensures map { V.CoinsView.coins view.new ≡ V.CoinsView.coins view.old }
    ensures value { result ≡ held_by lock.now (V.CoinsView.coins view.old) }
{
    let mut balance = Balance { coins: 0, value: 0 };
    let mut last = None;
    while let Some((at, coin)) = view.next(last.as_ref()) {
        balance = with_coin(balance, coin, lock);
        last = Some(at);
    }
    balance
}
