// The inputs and the outputs of one transaction applied to the coins, with an undo entry for each coin taken and each coin put.
#![tactic(auto)]

ghost use Rattle.std.specs.Prelude.{◌≡◌, ◌+◌, ◌*◌, ◌<◌, ◌≤◌, length, is_ok, IfOk, if◌then◌else◌, Ok, Err, MatchResult, OnOk};
ghost use Rattle.undo.specs.Entries.{entries};
ghost use Rattle.coinsview.specs.Meaning.{coin_at, without};
ghost use Rattle.blockform.specs.Readers.{items_of};
ghost use Rattle.connecting.specs.Applied.{Answers, spent, made};
ghost use Rattle.connecting.specs.Parts.{inputs_in, outputs_in};
ghost use Rattle.connecting.specs.Rules.{worth as worthOf, coins_made, coin_of, spend as spendBy, make as makeBy};
ghost use Rattle.unwinding.specs.TakenBack.{TakenBack};

use blockform::reader::{Item, Items, Transaction};
use coins::coin::{Coin, Lock, MAX_VALUE};
use coins::outpoint::Outpoint;
use coinsview::view::CoinsView;
use connecting::block::{Site, Sums};
use connecting::fault::{InputFault, TransactionFault};
use undo::Record;
use unwinding::chainstate::Chainstate;
use views::condition::SpendCondition;

// Takes the coin of an outpoint, and notes it: it has to be there, old enough, and opened by the witness.
fn spend<V: CoinsView, C: SpendCondition>(
    state: &mut Chainstate<V>,
    site: &Site<'_, C>,
    at: Outpoint,
    witness: &[u8],
) -> Result<Coin, InputFault>
    requires well { V.CoinsView.ok state.old.view }
    requires room { length (entries state.old.undo) < 512 }
    ensures well { V.CoinsView.ok state.new.view }
    ensures value { result ≡ spendBy (C.SpendCondition.opens site.now.condition.now) site.now.maturity site.now.height (coin_at at (V.CoinsView.coins state.old.view)) witness.now }
    ensures map { V.CoinsView.coins state.new.view ≡ (if is_ok result then without at (V.CoinsView.coins state.old.view) else V.CoinsView.coins state.old.view) }
    ensures taken { TakenBack V.CoinsView state.old state.new }
    ensures long { OnOk result (length (entries state.new.undo) ≡ length (entries state.old.undo) + 1) }
{
    let Some(coin) = state.view.look(&at) else {
        return Err(InputFault::Missing);
    };
    if coin.coinbase && site.height.saturating_sub(coin.height) < site.maturity {
        return Err(InputFault::Immature);
    }
    if !site.condition.opens(&coin.lock, witness, site.height) {
        return Err(InputFault::Shut);
    }
    let _ = state.view.take(&at);
    // The room was tested before the first coin was touched.
    let _ = state.undo.push(Record::Spent(at, coin));
    Ok(coin)
}

// Takes the coins of a transaction's inputs in order. Answers what they are worth.
pub fn spend_inputs<V: CoinsView, C: SpendCondition>(
    state: &mut Chainstate<V>,
    site: &Site<'_, C>,
    inputs: Items<'_>,
) -> Result<u64, TransactionFault>
    requires well { V.CoinsView.ok state.old.view }
    requires room { length (entries state.old.undo) + length (inputs_in (items_of inputs)) ≤ 512 }
    ensures well { V.CoinsView.ok state.new.view }
    ensures value { Answers (spent C.SpendCondition.opens site.now (inputs_in (items_of inputs.entry)) (V.CoinsView.coins state.old.view)) result (V.CoinsView.coins state.new.view) }
    ensures taken { TakenBack V.CoinsView state.old state.new }
    ensures long { OnOk result (length (entries state.new.undo) ≡ length (entries state.old.undo) + length (inputs_in (items_of inputs.entry))) }
    ensures few { IfOk result (λ paid. paid ≤ 64 * 2100000000000000) }
{
    let mut paid = 0;
    for (item, input) in inputs.enumerate() {
        let Item::Input {
            id,
            index,
            witness,
            ..
        } = input
        else {
            break;
        };
        let at = Outpoint { id: *id, index };
        let coin = spend(state, site, at, witness).map_err(|fault| TransactionFault::Item {
            item,
            fault,
        })?;
        paid += coin.value;
    }
    Ok(paid)
}

// What a transaction's outputs are worth.
pub fn outputs_worth(outputs: Items<'_>) -> u64
    requires { worthOf (outputs_in (items_of outputs)) ≤ 2100000000000000 }
    ensures { result ≡ worthOf (outputs_in (items_of outputs.entry)) }
{
    // `map_while` and `sum` were tried: that the sum fits, and what it is, got no proof.
    let mut sum = 0;
    for output in outputs {
        let Item::Output { value, .. } = output else {
            break;
        };
        sum += value;
    }
    sum
}

// The coin that an output makes. No coin is worth more than the greatest value.
fn made_coin(value: u64, lock: Lock, height: u32, coinbase: bool) -> Option<Coin>
    ensures { result ≡ coin_of (record { value = value; lock = lock }) height coinbase }
{
    if value > MAX_VALUE {
        return None;
    }
    Some(Coin {
        value,
        lock,
        height,
        coinbase,
    })
}

// Puts the coin of an output, and notes it.
fn make<V: CoinsView>(
    state: &mut Chainstate<V>,
    at: Outpoint,
    coin: Option<Coin>,
) -> Result<(), TransactionFault>
    requires well { V.CoinsView.ok state.old.view }
    requires room { length (entries state.old.undo) < 512 }
    ensures well { V.CoinsView.ok state.new.view }
    ensures value { MatchResult result (λ _. makeBy (V.CoinsView.most state.old.view) at.id at.index coin (V.CoinsView.coins state.old.view) ≡ Ok (V.CoinsView.coins state.new.view)) (λ f. makeBy (V.CoinsView.most state.old.view) at.id at.index coin (V.CoinsView.coins state.old.view) ≡ Err f) }
    ensures taken { TakenBack V.CoinsView state.old state.new }
    ensures long { OnOk result (length (entries state.new.undo) ≡ length (entries state.old.undo) + 1) }
{
    let item = at.index as usize;
    let coin = coin.ok_or(TransactionFault::Money { output: item })?;
    state
        .view
        .put(at, coin)
        .map_err(|fault| TransactionFault::Item {
            item,
            fault: fault.into(),
        })?;
    // The room was tested before the first coin was touched.
    let _ = state.undo.push(Record::Made(at, coin));
    Ok(())
}

// Puts the coins of a transaction's outputs in order, those of kind 0 aside. Answers how many were made and what was burned.
pub fn make_outputs<V: CoinsView, C>(
    state: &mut Chainstate<V>,
    site: &Site<'_, C>,
    tx: &Transaction<'_>,
    coinbase: bool,
) -> Result<Sums, TransactionFault>
    requires well { V.CoinsView.ok state.old.view }
    requires money { worthOf (outputs_in (items_of tx.now.outputs)) ≤ 2100000000000000 }
    requires room { length (entries state.old.undo) + coins_made (outputs_in (items_of tx.now.outputs)) ≤ 512 }
    ensures well { V.CoinsView.ok state.new.view }
    ensures value { Answers (made (V.CoinsView.most state.old.view) site.now tx.now.id.now coinbase (outputs_in (items_of tx.now.outputs)) (V.CoinsView.coins state.old.view)) result (V.CoinsView.coins state.new.view) }
    ensures taken { TakenBack V.CoinsView state.old state.new }
    ensures long { OnOk result (length (entries state.new.undo) ≡ length (entries state.old.undo) + coins_made (outputs_in (items_of tx.now.outputs))) }
    ensures few { IfOk result (λ a. (a.made ≤ 64) × (a.spent ≡ 0) × (a.fees ≡ 0) × (a.burned ≤ 2100000000000000)) }
{
    let mut sums = Sums::default();
    for (index, output) in tx.outputs.enumerate() {
        let Item::Output { value, lock, .. } = output else {
            break;
        };
        if lock.kind == 0 {
            sums.burned += value;
        } else {
            let at = Outpoint {
                id: *tx.id,
                index: index as u32,
            };
            make(state, at, made_coin(value, lock, site.height, coinbase))?;
            sums.made += 1;
        }
    }
    Ok(sums)
}
