// The checks that a block meets before a coin is touched.
#![tactic(auto)]

ghost use Rattle.std.specs.Prelude.{◌≡◌, ◌+◌, ◌≤◌, length, IfOk, Ok};
ghost use Rattle.blockform.specs.Value.{TransactionValue};
ghost use Rattle.blockform.specs.Readers.{piece_of, items_of, transactions_of, block_of, Hands};
ghost use Rattle.connecting.specs.Parts.{inputs_in, outputs_in, null_piece};
ghost use Rattle.connecting.specs.Rules.{then, is_coinbase as coinbaseBy, money, no_null, some_data, coinbase_checks, spending_checks, others_checks, transactions_checks, transactions_needs, same_id, checks, coins_made, others_needs, needs as needsOf};

use blockform::reader::{Block, Item, Items, Transaction, Transactions};
use coins::coin::MAX_VALUE;
use coins::outpoint::Outpoint;
use connecting::fault::{BlockFault, TransactionFault};

// An input that names the null outpoint.
fn is_null(item: &Item<'_>) -> bool
    ensures { result ≡ null_piece (piece_of item.now) }
{
    match item {
        Item::Input { id, index, .. } => Outpoint {
            id: **id,
            index: *index,
        }
        .is_null(),
        Item::Output { .. } => false,
    }
}

// Exactly one input, the null outpoint.
fn is_coinbase(mut inputs: Items<'_>) -> bool
    ensures { length (inputs_in (items_of inputs.entry)) ≡ length (items_of inputs.entry) → result ≡ coinbaseBy (inputs_in (items_of inputs.entry)) }
{
    inputs.len() == 1 && inputs.next().is_some_and(|item| is_null(&item))
}

// The outputs' values and their sum so far are at most the greatest value. Answers how many outputs make a coin.
fn check_outputs(outputs: Items<'_>) -> Result<usize, TransactionFault>
    ensures is { result ≡ then (money 0 0 (outputs_in (items_of outputs.entry))) (λ _. Ok (coins_made (outputs_in (items_of outputs.entry)))) }
    ensures few { IfOk result (λ n. n ≤ 64) }
{
    let mut sum = 0;
    let mut made = 0;
    for (output, item) in outputs.enumerate() {
        let Item::Output { value, lock, .. } = item else {
            break;
        };
        if value > MAX_VALUE - sum {
            return Err(TransactionFault::Money { output });
        }
        sum += value;
        if lock.kind != 0 {
            made += 1;
        }
    }
    Ok(made)
}

// No input names the null outpoint.
fn check_inputs(inputs: Items<'_>) -> Result<(), TransactionFault>
    ensures { result ≡ no_null 0 (inputs_in (items_of inputs.entry)) }
{
    for (input, item) in inputs.enumerate() {
        let Item::Input { id, index, .. } = item else {
            break;
        };
        if (Outpoint { id: *id, index }).is_null() {
            return Err(TransactionFault::Null { input });
        }
    }
    Ok(())
}

// The first input's witness has two bytes at least.
fn check_data(mut inputs: Items<'_>) -> Result<(), TransactionFault>
    ensures { result ≡ some_data (inputs_in (items_of inputs.entry)) }
{
    match inputs.next() {
        Some(Item::Input { witness, .. }) if witness.len() >= 2 => Ok(()),
        _ => Err(TransactionFault::CbData),
    }
}

// The checks of a coinbase. Answers how many undo entries it needs.
fn check_coinbase(tx: &Transaction<'_>) -> Result<usize, TransactionFault>
    ensures is { (v : TransactionValue) → Hands tx.now v → result ≡ then (coinbase_checks v) (λ _. Ok (coins_made v.outputs)) }
    ensures few { IfOk result (λ n. n ≤ 64) }
{
    check_data(tx.inputs)?;
    if tx.outputs.len() == 0 {
        return Err(TransactionFault::NoOutput);
    }
    check_outputs(tx.outputs)
}

// The checks of any other transaction. Answers how many undo entries it needs.
fn check_spending(tx: &Transaction<'_>) -> Result<usize, TransactionFault>
    ensures is { (v : TransactionValue) → Hands tx.now v → result ≡ then (spending_checks v) (λ _. Ok (length v.inputs + coins_made v.outputs)) }
    ensures few { IfOk result (λ n. n ≤ 128) }
{
    if is_coinbase(tx.inputs) {
        return Err(TransactionFault::Coinbase2);
    }
    if tx.inputs.len() == 0 {
        return Err(TransactionFault::NoInput);
    }
    if tx.outputs.len() == 0 {
        return Err(TransactionFault::NoOutput);
    }
    let made = check_outputs(tx.outputs)?;
    check_inputs(tx.inputs)?;
    Ok(tx.inputs.len() + made)
}

// The checks of the transactions after the coinbase. Answers how many undo entries they need.
fn check_others(others: Transactions<'_>) -> Result<usize, BlockFault>
    ensures is { result ≡ then (others_checks 1 (transactions_of others.entry)) (λ _. Ok (others_needs (transactions_of others.entry))) }
    ensures few { IfOk result (λ n. n ≤ 8192) }
{
    let mut needed = 0;
    for (before, tx) in others.enumerate() {
        needed += check_spending(&tx).map_err(|fault| BlockFault::Transaction {
            transaction: before + 1,
            fault,
        })?;
    }
    Ok(needed)
}

// The checks of a block's transactions. Answers how many undo entries they need.
fn check_transactions(mut others: Transactions<'_>) -> Result<usize, BlockFault>
    ensures is { result ≡ then (transactions_checks (transactions_of others.entry)) (λ _. Ok (transactions_needs (transactions_of others.entry))) }
    ensures few { IfOk result (λ n. n ≤ 8256) }
{
    let Some(first) = others.next() else {
        return Err(BlockFault::NoCoinbase);
    };
    if !is_coinbase(first.inputs) {
        return Err(BlockFault::NoCoinbase);
    }
    let made = check_coinbase(&first).map_err(|fault| BlockFault::Transaction {
        transaction: 0,
        fault,
    })?;
    let needed = check_others(others)?;
    Ok(made + needed)
}

// A function of its own: written in place, the four ways out of `check_block` were tried, and got no proof.
fn is_same(a: &[u8; 32], b: &[u8; 32]) -> bool
    ensures { result ≡ same_id a.now b.now }
{
    *a == *b
}

// The checks of a block that would follow the tip `tip` at height `height`, the last height being `last`. Answers how many undo entries it needs.
pub fn check_block(
    block: &Block<'_>,
    tip: &[u8; 32],
    height: u32,
    last: u32,
) -> Result<usize, BlockFault>
    ensures is { result ≡ then (checks tip.now height last (block_of block.now)) (λ _. Ok (needsOf (block_of block.now))) }
    ensures few { IfOk result (λ n. n ≤ 8257) }
{
    if !is_same(block.previous(), tip) {
        return Err(BlockFault::Parent);
    }
    if height >= last {
        return Err(BlockFault::LastHeight);
    }
    let needed = check_transactions(block.transactions())?;
    Ok(1 + needed)
}
