// Connecting a block, taking one back, and settling what can be taken back.
ghost use Rattle.std.specs.Prelude.{◌≡◌, ◌+◌, ◌≤◌, min, true, false, length, is_ok, Some, Ok, Err, MatchResult, OnOk, if◌then◌else◌};
ghost use Rattle.undo.specs.Entries.{entries};
ghost use Rattle.blockform.specs.Value.{All};
ghost use Rattle.blockform.specs.Readers.{block_of};
ghost use Rattle.connecting.specs.Applied.{setting, Moneyed};
ghost use Rattle.connecting.specs.Rules.{effect, needs as needsOf};
ghost use Rattle.unwinding.specs.Undoing.{back};
ghost use Rattle.ledger.specs.Book.{Book, connected, connect_bytes, told, connect_answer, disconnected, disconnect_answer, settled};
ghost use Rattle.ledger.specs.declared.Outcome.TheVariants.{Clean, Unclean};
ghost use Rattle.ledger.specs.Standing.{Stands, Early, Follows, Unchanged};

use crate::fault::LedgerFault;
use crate::{ActiveChain, Connected, Disconnected, Ledger, Outcome, Tip};
use applying::apply_block;
use blockform::reader::Block;
use checking::check_block;
use coinsview::view::CoinsView;
use connecting::block::{Site, Sums};
use connecting::fault::BlockFault;
use undo::Record;
use unwinding::chainstate::Chainstate;
use views::condition::SpendCondition;

impl<V: CoinsView, C: SpendCondition> Ledger<V, C> {
    // Connects a block to the tip, or says why not.
    fn connect_block(&mut self, chain: ActiveChain, bytes: &[u8]) -> Result<Connected, BlockFault>
        requires well { V.CoinsView.ok self.old.state.view }
        requires active { self.old.active ≡ Some chain }
        ensures ok { V.CoinsView.ok self.new.state.view }
        ensures law { Follows V.CoinsView C.SpendCondition self.old self.new result (λ k. connected k bytes.now) (λ k. told k (connect_bytes k bytes.now)) }
        ensures same { is_ok result ≡ false → Unchanged V.CoinsView self.old self.new }
    {
        let block = Block::read(bytes)?;
        let needed = check_block(&block, &chain.tip.id, chain.tip.height, chain.terms.last)?;
        if needed > self.state.undo.free() {
            return Err(BlockFault::LogFull);
        }
        let height = chain.tip.height + 1;
        let site = Site {
            condition: &self.condition,
            height,
            maturity: chain.terms.maturity,
            halving: chain.terms.halving,
        };
        let sums = apply(&mut self.state, &site, &block)?;
        let id = *block.id();
        self.active = Some(ActiveChain {
            terms: chain.terms,
            tip: Tip { id, height },
            kept: chain.kept + 1,
        });
        Ok(Connected {
            height,
            made: sums.made,
            spent: sums.spent,
            fees: sums.fees,
            burned: sums.burned,
        })
    }

    // Connects the block that the bytes are.
    pub fn connect(&mut self, bytes: &[u8]) -> Result<Connected, LedgerFault>
        requires { V.CoinsView.ok self.old.state.view }
        ensures ok { V.CoinsView.ok self.new.state.view }
        ensures early { Early self.old self.new result }
        ensures law { Follows V.CoinsView C.SpendCondition self.old self.new result (λ k. connected k bytes.now) (λ k. connect_answer k bytes.now) }
        ensures same { is_ok result ≡ false → Unchanged V.CoinsView self.old self.new }
    {
        let chain = self.active.ok_or(LedgerFault::NotStarted)?;
        Ok(self.connect_block(chain, bytes)?)
    }

    // Takes the last block back, by its undo entries.
    pub fn disconnect(&mut self) -> Result<Disconnected, LedgerFault>
        requires { V.CoinsView.ok self.old.state.view }
        ensures ok { V.CoinsView.ok self.new.state.view }
        ensures early { Early self.old self.new result }
        ensures law { Follows V.CoinsView C.SpendCondition self.old self.new result disconnected disconnect_answer }
        ensures same { (k : Book) → Stands V.CoinsView C.SpendCondition k self.old → is_ok result ≡ false → Unchanged V.CoinsView self.old self.new }
    {
        let chain = self.active.ok_or(LedgerFault::NotStarted)?;
        if chain.kept == 0 {
            return Err(LedgerFault::Nothing);
        }
        let unwound = self.state.unwind().ok_or(LedgerFault::Nothing)?;
        let id = unwound.previous;
        let height = chain.tip.height;
        self.active = Some(ActiveChain {
            terms: chain.terms,
            tip: Tip {
                id,
                height: height - 1,
            },
            kept: chain.kept - 1,
        });
        Ok(Disconnected {
            height,
            outcome: Outcome::from(unwound.clean),
        })
    }

    // Keeps the undo entries of the newest n blocks, frees the others, and answers how many blocks are kept.
    pub fn settle(&mut self, n: u64) -> Result<u64, LedgerFault>
        requires { V.CoinsView.ok self.old.state.view }
        ensures ok { V.CoinsView.ok self.new.state.view }
        ensures early { Early self.old self.new result }
        ensures law { Follows V.CoinsView C.SpendCondition self.old self.new result (λ k. settled k n) (λ k. Ok (min n k.kept)) }
    {
        let chain = self.active.ok_or(LedgerFault::NotStarted)?;
        let kept = u64::from(chain.kept);
        if kept <= n {
            return Ok(kept);
        }
        self.state.undo.keep(n as usize);
        self.active = Some(ActiveChain {
            terms: chain.terms,
            tip: chain.tip,
            kept: n as u32,
        });
        Ok(n)
    }
}

// Applies a block that has passed its checks, or leaves the coins and the undo entries as they read before.
fn apply<V: CoinsView, C: SpendCondition>(
    state: &mut Chainstate<V>,
    site: &Site<'_, C>,
    block: &Block<'_>,
) -> Result<Sums, BlockFault>
    requires well { V.CoinsView.ok state.old.view }
    requires money { All Moneyed (block_of block.now).transactions }
    requires room { length (entries state.old.undo) + needsOf (block_of block.now) ≤ 512 }
    ensures well { V.CoinsView.ok state.new.view }
    ensures fixed { V.CoinsView.most state.new.view ≡ V.CoinsView.most state.old.view }
    ensures value { MatchResult result (λ a. effect (setting (V.CoinsView.most state.old.view) C.SpendCondition.opens site.now) site.now.height (block_of block.now).transactions (V.CoinsView.coins state.old.view) ≡ Ok (V.CoinsView.coins state.new.view, a)) (λ f. (effect (setting (V.CoinsView.most state.old.view) C.SpendCondition.opens site.now) site.now.height (block_of block.now).transactions (V.CoinsView.coins state.old.view) ≡ Err f) × (V.CoinsView.coins state.new.view ≡ V.CoinsView.coins state.old.view) × (entries state.new.undo ≡ entries state.old.undo)) }
    ensures kept { OnOk result ((back (V.CoinsView.most state.old.view) (entries state.new.undo) (V.CoinsView.coins state.new.view) true ≡ Some (record { previous = (block_of block.now).previous; below = entries state.old.undo; coins = V.CoinsView.coins state.old.view; clean = true })) × (length (entries state.new.undo) ≡ needsOf (block_of block.now) + length (entries state.old.undo))) }
{
    let previous = *block.previous();
    // The room for the mark was tested.
    let _ = state.undo.push(Record::Mark(previous));
    let applied = apply_block(state, site, block);
    if applied.is_err() {
        let _ = state.unwind();
    }
    applied
}

impl From<bool> for Outcome {
    ghost from_gives = { λ clean r. r ≡ (if clean then Clean else Unclean) };

    fn from(clean: bool) -> Outcome {
        if clean {
            Outcome::Clean
        } else {
            Outcome::Unclean
        }
    }
}
