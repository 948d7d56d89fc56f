// Transactions, handed out one after another.
ghost use Rattle.std.specs.Prelude.{◌≡◌, ◌≤◌, length};
ghost use Rattle.std.specs.Iterator.{item_count};
ghost use Rattle.blockform.specs.Readers.{transactions_of, HandsTransaction};

use crate::reader::fields::{array_at, past_inputs};
use crate::reader::{Items, Kind, Transaction, Transactions};

impl<'a> Transactions<'a> {
    // How many are still to come.
    pub fn len(&self) -> usize
        ensures is { result ≡ length (transactions_of self.now) }
        ensures few { result ≤ 64 }
    {
        self.left
    }
}

impl<'a> Iterator for Transactions<'a> {
    type Item = Transaction<'a>;

    ghost next_gives = { HandsTransaction };

    ghost remaining = { item_count transactions_of };

    // The next transaction; `None` after the last.
    fn next(&mut self) -> Option<Transaction<'a>> {
        if self.left == 0 {
            return None;
        }
        let block = self.block;
        let offset = self.place;
        let id = array_at(block, offset);
        let count = offset + 32;
        let inputs = Items {
            block,
            place: count + 1,
            left: block[count] as usize,
            kind: Kind::Input,
        };
        let end = past_inputs(block, inputs.place, inputs.left);
        let outputs = Items {
            block,
            place: end + 1,
            left: block[end] as usize,
            kind: Kind::Output,
        };
        self.place = outputs.place + 17 * outputs.left;
        self.left -= 1;
        Some(Transaction {
            id,
            offset,
            inputs,
            outputs,
        })
    }
}
