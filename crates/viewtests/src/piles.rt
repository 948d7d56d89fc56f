// Whether each pile of views agrees with the model over a list of calls: a function for each, so that a test's proof does not make the pile.
use crate::drive::{Lists, agrees};
use std::alloc::{AllocError, Global};
use views::pile::{cached_quota, cached_table, quota_over_cache};
use views::{Coin, FlatTable, Outpoint};

pub fn table_agrees(
    heap: Global,
    cells: &mut [(Outpoint, Coin)],
    lists: Lists,
) -> Result<bool, AllocError> {
    agrees(heap, &mut FlatTable::new(cells), lists)
}

pub fn cache_agrees(
    heap: Global,
    cells: &mut [(Outpoint, Coin)],
    lists: Lists,
) -> Result<bool, AllocError> {
    agrees(heap, &mut cached_table(cells), lists)
}

pub fn pile_agrees(
    heap: Global,
    cells: &mut [(Outpoint, Coin)],
    limit: usize,
    lists: Lists,
) -> Result<bool, AllocError> {
    agrees(heap, &mut cached_quota(cells, limit), lists)
}

pub fn quota_agrees(
    heap: Global,
    cells: &mut [(Outpoint, Coin)],
    limit: usize,
    lists: Lists,
) -> Result<bool, AllocError> {
    agrees(heap, &mut quota_over_cache(cells, limit), lists)
}
