// Piles of views over a table in the caller's cells.
ghost use Rattle.std.specs.Prelude.{min, [], length};
ghost use Rattle.coinsview.specs.Made.{Means};
ghost use Rattle.coinsview.specs.Quota.{quota_view};
ghost use Rattle.coinsview.specs.Table.{table_view};
ghost use Rattle.cache.specs.Parts.{cache_view};

use cache::cache::Cache;
use coins::coin::Coin;
use coins::outpoint::Outpoint;
use coinsview::quota::Quota;
use coinsview::table::FlatTable;

// A cache over a flat table.
pub fn cached_table(cells: &mut [(Outpoint, Coin)]) -> Cache<FlatTable<'_>>
    ensures { Means (cache_view table_view) (min (length cells.old) 4096) [] [] result }
{
    Cache::new(FlatTable::new(cells))
}

// A cache over a cache over a quota over a flat table.
pub fn cached_quota(
    cells: &mut [(Outpoint, Coin)],
    limit: usize,
) -> Cache<Cache<Quota<FlatTable<'_>>>>
    ensures { Means (cache_view (cache_view (quota_view table_view))) (min limit (min (length cells.old) 4096)) [] [] result }
{
    Cache::new(Cache::new(Quota::new(FlatTable::new(cells), limit)))
}

// A quota over a cache over a flat table.
pub fn quota_over_cache(cells: &mut [(Outpoint, Coin)], limit: usize) -> Quota<Cache<FlatTable<'_>>>
    ensures { Means (quota_view (cache_view table_view)) (min limit (min (length cells.old) 4096)) [] [] result }
{
    Quota::new(cached_table(cells), limit)
}
