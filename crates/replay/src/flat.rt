// The run over a cache on a flat table, from nothing but a block file and a script.
ghost use Rattle.std.specs.Prelude.{◌≡◌, List, IfOk, string_bytes, OnOk};
ghost use Rattle.coinsview.specs.Table.{table_view};
ghost use Rattle.cache.specs.Parts.{cache_view};
ghost use Rattle.ledger.specs.PageLaws.{PageLaws};
ghost use Rattle.ledger.specs.declared.runs.Answer.{Answer as Said};
ghost use Rattle.replay.specs.Flat.{FlatLedger, badge_or_clock, first_page};
ghost use Rattle.replay.specs.PageTurns.{printout, script_calls};
ghost use Rattle.replay.specs.Turns.{Printed};

use crate::text::printout_of;
use cache::cache::Cache;
use coinsview::table::{EMPTY_CELL, FlatTable};
use ledger::Ledger;
use std::alloc::{AllocError, Global};
use views::condition::{Badge, Clock, Either};

// The cells of the flat table.
const CELLS: usize = 512;

// The most bytes of a block file that are worth reading: one more than it may have.
pub const MOST_READ: u64 = 65_537;

// The printout of a ledger that is made for it: a cache over a flat table of 512 cells, opened by badge or clock.
pub fn printout_over_flat_table<'a>(
    heap: Global,
    blocks: &'a [u8],
    script: &'a [u8],
) -> Result<String, AllocError>
    ensures text { IfOk result (λ t. Printed blocks.now script.now (string_bytes t)) }
    ensures page { IfOk result (λ t. string_bytes t ≡ printout blocks.now script.now first_page) }
    ensures laws { OnOk result ((l : FlatLedger) × (said : List Said) × (cache_view table_view).ok l.state.view × PageLaws (cache_view table_view) badge_or_clock first_page blocks.now (script_calls blocks.now script.now) said l) }
{
    let mut cells = vec![in heap; EMPTY_CELL; CELLS]?;
    let view = Cache::new(FlatTable::new(&mut cells));
    let condition = Either {
        first: Badge,
        second: Clock,
    };
    let mut ledger = Ledger::new(view, condition);
    printout_of(heap, blocks, script, &mut ledger)
}
