// Readers over bytes that were accepted as a block. What is left of each is well formed, so reading has no fault.
ghost use Rattle.std.specs.Prelude.{◌≡◌, ◌≤◌, true, is_ok};
ghost use Rattle.std.proofs.Props.{props};
ghost use Rattle.blockbytes.specs.Form.{times, transaction as transaction_form, block as block_form};
ghost use Rattle.blockform.specs.Kinds.{item as item_form};

use coins::coin::Lock;

mod accepted;
mod each_item;
mod each_transaction;
mod fields;

// An input or an output of a transaction, with the offset in the block at which it begins.
#[derive(Clone, Copy)]
pub enum Item<'a> {
    Input {
        offset: usize,
        id: &'a [u8; 32],
        index: u32,
        witness: &'a [u8],
    },
    Output {
        offset: usize,
        value: u64,
        lock: Lock,
    },
}

// What a list of items has.
#[derive(Clone, Copy)]
enum Kind {
    Input,
    Output,
}

// The inputs, or the outputs, of a transaction that are still to come. The place counts from the front of the block, as
// offsets do, so it stands beside the whole of it.
#[derive(Clone, Copy)]
pub struct Items<'a> {
    block: &'a [u8],
    place: usize,
    left: usize,
    kind: Kind,
    pub ghost few: { left ≤ 64 },
    pub ghost good: { is_ok (times left (item_form kind block.now) place) ≡ true } by { Prim.hlevel props },
}

// A transaction, with the offset in the block at which it begins.
#[derive(Clone, Copy)]
pub struct Transaction<'a> {
    pub id: &'a [u8; 32],
    pub offset: usize,
    pub inputs: Items<'a>,
    pub outputs: Items<'a>,
}

// The transactions of a block that are still to come. One reader for them and for items would rest on a trait of what is read, with its laws: longer than the two.
#[derive(Clone, Copy)]
pub struct Transactions<'a> {
    block: &'a [u8],
    place: usize,
    left: usize,
    pub ghost few: { left ≤ 64 },
    pub ghost good: { is_ok (times left (transaction_form block.now) place) ≡ true } by { Prim.hlevel props },
}

// The bytes of a block.
#[derive(Clone, Copy)]
pub struct Block<'a> {
    bytes: &'a [u8],
    pub ghost good: { is_ok (block_form bytes.now) ≡ true } by { Prim.hlevel props },
}
