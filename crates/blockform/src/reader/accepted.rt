// A block, made from bytes whose form is right.
ghost use Rattle.std.specs.Prelude.{◌≡◌, IfOk, Ok, Err, MatchResult};
ghost use Rattle.blockbytes.specs.Laws.{Accepted};
ghost use Rattle.blockbytes.specs.Places.{read_block};
ghost use Rattle.blockbytes.specs.Value.{BlockValue};
ghost use Rattle.blockform.specs.Readers.{block_of, transactions_of, next_transaction, BlockGood, TransactionsGood};

use crate::MAX_BLOCK;
use crate::reader::fields::array_at;
use crate::reader::{Block, Transactions};
use blockbytes::fault::FormFault;
use blockbytes::form;

impl<'a> Block<'a> {
    // The block that the bytes are, or the first fault: the size first, and then the bytes from the front.
    pub fn read(bytes: &'a [u8]) -> Result<Block<'a>, FormFault>
        ensures good { IfOk result (λ b. BlockGood b) }
        ensures reads { MatchResult result (λ b. read_block bytes.now ≡ Ok (block_of b)) (λ e. read_block bytes.now ≡ Err e) }
        ensures accepts { MatchResult result (λ b. Accepted bytes.now (block_of b)) (λ _. (v : BlockValue) → Accepted bytes.now v → ⊥) }
    {
        if bytes.len() > MAX_BLOCK {
            return Err(FormFault::OverSize);
        }
        form::block(bytes)?;
        Ok(Block { bytes })
    }

    pub fn id(&self) -> &'a [u8; 32]
        ensures { result.now ≡ (block_of self.now).id }
    {
        array_at(self.bytes, 0)
    }

    pub fn previous(&self) -> &'a [u8; 32]
        ensures { result.now ≡ (block_of self.now).previous }
    {
        array_at(self.bytes, 32)
    }

    pub fn transactions(&self) -> Transactions<'a>
        ensures good { TransactionsGood result }
        ensures all { transactions_of result ≡ (block_of self.now).transactions }
        ensures offset { next_transaction result ≡ 65 }
    {
        Transactions {
            block: self.bytes,
            place: 65,
            left: self.bytes[64] as usize,
        }
    }
}
