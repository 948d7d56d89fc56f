// The effect of a block on the coins, with an undo entry for each coin taken and each coin put.
#![tactic(auto)]

ghost use Rattle.std.specs.Prelude.{◌≡◌, ◌+◌, ◌*◌, ◌≤◌, length, IfOk, OnOk};
ghost use Rattle.undo.specs.Entries.{entries};
ghost use Rattle.blockform.specs.Value.{All};
ghost use Rattle.blockform.specs.Readers.{items_of, transactions_of, block_of};
ghost use Rattle.connecting.specs.Applied.{Answers, setting, value_of, Moneyed, spending_needs};
ghost use Rattle.connecting.specs.Parts.{inputs_in};
ghost use Rattle.connecting.specs.Rules.{others_needs, transactions_needs, none, spending, spending_all, effect};
ghost use Rattle.unwinding.specs.TakenBack.{TakenBack};

use blockform::reader::{Block, Transaction, Transactions};
use coinsview::view::CoinsView;
use connecting::block::{Site, Sums};
use connecting::fault::{BlockFault, TransactionFault};
use connecting::subsidy::subsidy;
use transacting::{make_outputs, outputs_worth, spend_inputs};
use unwinding::chainstate::Chainstate;
use views::condition::SpendCondition;

// Applies a transaction after the coinbase.
fn apply_spending<V: CoinsView, C: SpendCondition>(
    state: &mut Chainstate<V>,
    site: &Site<'_, C>,
    tx: &Transaction<'_>,
) -> Result<Sums, TransactionFault>
    requires well { V.CoinsView.ok state.old.view }
    requires whole { length (inputs_in (items_of tx.now.inputs)) ≡ length (items_of tx.now.inputs) }
    requires money { Moneyed (value_of tx.now) }
    requires room { length (entries state.old.undo) + spending_needs (value_of tx.now) ≤ 512 }
    ensures well { V.CoinsView.ok state.new.view }
    ensures value { Answers (spending (setting (V.CoinsView.most state.old.view) C.SpendCondition.opens site.now) site.now.height (value_of tx.now) (V.CoinsView.coins state.old.view)) result (V.CoinsView.coins state.new.view) }
    ensures taken { TakenBack V.CoinsView state.old state.new }
    ensures long { OnOk result (length (entries state.new.undo) ≡ length (entries state.old.undo) + spending_needs (value_of tx.now)) }
    ensures few { IfOk result (λ a. (a.made ≤ 64) × (a.spent ≤ 64) × (a.fees ≤ 64 * 2100000000000000) × (a.burned ≤ 2100000000000000)) }
{
    let paid = spend_inputs(state, site, tx.inputs)?;
    let worth = outputs_worth(tx.outputs);
    let fees = paid.checked_sub(worth).ok_or(TransactionFault::Under)?;
    let made = make_outputs(state, site, tx, false)?;
    Ok(Sums {
        spent: tx.inputs.len() as u64,
        fees,
        ..made
    })
}

// Applies the transactions after the coinbase in order, and adds up what they come to.
fn apply_others<V: CoinsView, C: SpendCondition>(
    state: &mut Chainstate<V>,
    site: &Site<'_, C>,
    others: Transactions<'_>,
) -> Result<Sums, BlockFault>
    requires well { V.CoinsView.ok state.old.view }
    requires money { All Moneyed (transactions_of others) }
    requires room { length (entries state.old.undo) + others_needs (transactions_of others) ≤ 512 }
    ensures well { V.CoinsView.ok state.new.view }
    ensures value { Answers (spending_all (setting (V.CoinsView.most state.old.view) C.SpendCondition.opens site.now) site.now.height 1 (transactions_of others.entry) (V.CoinsView.coins state.old.view) none) result (V.CoinsView.coins state.new.view) }
    ensures taken { TakenBack V.CoinsView state.old state.new }
    ensures long { OnOk result (length (entries state.new.undo) ≡ length (entries state.old.undo) + others_needs (transactions_of others.entry)) }
    ensures few { IfOk result (λ a. (a.made ≤ 4096) × (a.spent ≤ 4096) × (a.fees ≤ 4096 * 2100000000000000) × (a.burned ≤ 64 * 2100000000000000)) }
{
    let mut sums = Sums::default();
    for (before, tx) in others.enumerate() {
        let one = apply_spending(state, site, &tx).map_err(|fault| BlockFault::Transaction {
            transaction: before + 1,
            fault,
        })?;
        sums = sums + one;
    }
    Ok(sums)
}

// Applies a block whose checks it has passed. On a refusal the coins and the undo entries are left as far as it came.
pub fn apply_block<V: CoinsView, C: SpendCondition>(
    state: &mut Chainstate<V>,
    site: &Site<'_, C>,
    block: &Block<'_>,
) -> Result<Sums, BlockFault>
    requires well { V.CoinsView.ok state.old.view }
    requires money { All Moneyed (block_of block.now).transactions }
    requires room { length (entries state.old.undo) + transactions_needs (block_of block.now).transactions ≤ 512 }
    ensures well { V.CoinsView.ok state.new.view }
    ensures value { Answers (effect (setting (V.CoinsView.most state.old.view) C.SpendCondition.opens site.now) site.now.height (block_of block.now).transactions (V.CoinsView.coins state.old.view)) result (V.CoinsView.coins state.new.view) }
    ensures taken { TakenBack V.CoinsView state.old state.new }
    ensures long { OnOk result (length (entries state.new.undo) ≡ length (entries state.old.undo) + transactions_needs (block_of block.now).transactions) }
{
    let mut others = block.transactions();
    let Some(first) = others.next() else {
        return Err(BlockFault::NoCoinbase);
    };
    let claimed = outputs_worth(first.outputs);
    let coinbase = make_outputs(state, site, &first, true).map_err(|fault| {
        BlockFault::Transaction {
            transaction: 0,
            fault,
        }
    })?;
    let sums = coinbase + apply_others(state, site, others)?;
    let due = subsidy(site.halving, site.height) + sums.fees;
    let unclaimed = due.checked_sub(claimed).ok_or(BlockFault::Claim)?;
    Ok(Sums {
        burned: unclaimed + sums.burned,
        ..sums
    })
}
