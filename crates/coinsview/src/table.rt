// A table of coins in the caller's cells, one coin a cell, the used ones in the order of their outpoints.
ghost use Rattle.std.specs.Prelude.{◌≡◌, ◌<◌, ◌≤◌, min, [], length, MatchResult};
ghost use Rattle.std.specs.List.{slice_get};
ghost use Rattle.maps.specs.Maps.{after};
ghost use Rattle.maps.specs.Keyed.{outpoints};
ghost use Rattle.maps.specs.Search.{Found};
ghost use Rattle.coinsview.specs.Made.{Means};
ghost use Rattle.coinsview.specs.Table.{cells_of, coins_of, empty_cells, table_view};

use crate::fault::ViewFault;
use crate::view::CoinsView;
use coins::coin::{Coin, Lock};
use coins::outpoint::Outpoint;
use maps::search::{above, find};

// The most cells that a table uses.
pub const MOST_CELLS: usize = 4096;

// What is written into each cell at making.
pub const EMPTY_CELL: (Outpoint, Coin) = (
    Outpoint {
        id: [0; 32],
        index: 0,
    },
    Coin {
        value: 0,
        lock: Lock {
            kind: 0,
            argument: 0,
        },
        height: 0,
        coinbase: false,
    },
);

// The cells are the caller's memory, so their count in use stands beside them: nothing is allocated.
#[derive(Drop)]
pub struct FlatTable<'a> {
    cells: &'a mut [(Outpoint, Coin)],
    used: usize,
}

impl<'a> FlatTable<'a> {
    // An empty table over the cells, which it empties, and of which it uses the first 4,096 at most.
    pub fn new(cells: &'a mut [(Outpoint, Coin)]) -> FlatTable<'a>
        ensures means { Means table_view (min (length cells.old) 4096) [] [] result }
        ensures emptied { cells_of result ≡ empty_cells (min (length cells.old) 4096) }
    {
        cells.fill(EMPTY_CELL);
        let most = cells.len().min(MOST_CELLS);
        FlatTable {
            cells: &mut cells[0..most],
            used: 0,
        }
    }
}

impl FlatTable<'_> {
    // The cells in use.
    fn coins(&self) -> &[(Outpoint, Coin)]
        requires { table_view.ok self.now }
        ensures { result.now ≡ coins_of self.now }
    {
        &self.cells[0..self.used]
    }

    // The place of k among the used cells, as `Ok` where it has a coin.
    fn find(&self, k: &Outpoint) -> Result<usize, usize>
        requires { table_view.ok self.now }
        ensures found { Found outpoints k.now (coins_of self.now) result }
        ensures within { MatchResult result (λ i. i < self.now.used) (λ i. i ≤ self.now.used) }
    {
        find(self.coins(), k)
    }
}

// `table_view` has the ghost members all together; an `impl` gives each by its name.
impl CoinsView for FlatTable<'_> {
    ghost ok = { table_view.ok };

    ghost most = { table_view.most };

    ghost coins = { table_view.coins };

    ghost bottom = { table_view.bottom };

    ghost sorted = { table_view.sorted };

    ghost few = { table_view.few };

    ghost small = { table_view.small };

    fn capacity(&self) -> usize {
        self.cells.len()
    }

    fn count(&self) -> usize {
        self.used // one coin a cell
    }

    fn look(&mut self, at: &Outpoint) -> Option<Coin> {
        let i = self.find(at).ok()?;
        Some(self.cells[i].1)
    }

    fn next(&mut self, from: Option<&Outpoint>) -> Option<(Outpoint, Coin)> {
        let i = above(self.coins(), from);
        self.coins().get(i).copied()
    }

    fn put(&mut self, at: Outpoint, coin: Coin) -> Result<(), ViewFault> {
        let Err(i) = self.find(&at) else {
            return Err(ViewFault::Exists);
        };
        if self.used == self.capacity() {
            return Err(ViewFault::Full);
        }
        self.cells.copy_within(i..self.used, i + 1);
        self.cells[i] = (at, coin);
        self.used += 1;
        Ok(())
    }

    fn take(&mut self, at: &Outpoint) -> Option<Coin> {
        let Ok(i) = self.find(at) else {
            return None;
        };
        let coin = self.cells[i].1;
        self.cells.copy_within(i + 1..self.used, i);
        self.used -= 1;
        Some(coin)
    }

    fn flush(&mut self) {}
}
