// The lists over a flat table, a quota, and caches over them.
use crate::calls::{Answered, Call, DONE};
use crate::state::state_of;
use crate::tests::lists::{
    calls_over_coins, crowding_calls, filling_calls, mixed_blocks, plain_blocks, reading_calls,
    settling_calls, starting_calls, tight_blocks, unflushed_calls, wide_blocks,
};
use crate::tests::{CELL, agrees};
use cache::cache::Cache;
use coins::coin::Coin;
use coins::outpoint::Outpoint;
use coinsview::quota::Quota;
use coinsview::table::FlatTable;
use coinsview::view::CoinsView;
use ledger::Ledger;
use std::alloc::Global;
use std::test::Fail;
use views::condition::Badge;
use views::pile::{cached_quota, cached_table};

// Makes the calls of a list on a new ledger over a cache on a table.
fn cache_agrees(heap: Global, blocks: &[Vec<u8>], list: &[(Call, Answered)]) -> Result<(), Fail> {
    let mut cells = [CELL; 512];
    let mut ledger = Ledger::new(cached_table(&mut cells), Badge);
    agrees(heap, &mut ledger, blocks, list)
}

#[test]
fn starting(rt: HostRuntime) -> Result<(), Fail> {
    cache_agrees(rt.alloc(), &plain_blocks(rt.alloc())?, &starting_calls())
}

#[test]
fn settling(rt: HostRuntime) -> Result<(), Fail> {
    cache_agrees(rt.alloc(), &plain_blocks(rt.alloc())?, &settling_calls())?;
    cache_agrees(rt.alloc(), &wide_blocks(rt.alloc())?, &crowding_calls())
}

#[test]
fn reading(rt: HostRuntime) -> Result<(), Fail> {
    cache_agrees(rt.alloc(), &mixed_blocks(rt.alloc())?, &reading_calls())
}

#[test]
fn start_over_coins(rt: HostRuntime) -> Result<(), Fail> {
    let heap = rt.alloc();
    let mut cells = [CELL; 8];
    let mut table = FlatTable::new(&mut cells);
    assert!(rt; table.put(CELL.0, CELL.1).is_ok());
    let mut ledger = Ledger::new(table, Badge);
    agrees(heap, &mut ledger, &plain_blocks(heap)?, &calls_over_coins())
}

#[test]
fn filling_a_table(rt: HostRuntime) -> Result<(), Fail> {
    let heap = rt.alloc();
    let mut cells = [CELL; 3];
    let mut ledger = Ledger::new(FlatTable::new(&mut cells), Badge);
    agrees(heap, &mut ledger, &tight_blocks(heap)?, &filling_calls())
}

#[test]
fn filling_a_quota(rt: HostRuntime) -> Result<(), Fail> {
    let heap = rt.alloc();
    let mut cells = [CELL; 8];
    let mut ledger = Ledger::new(cached_quota(&mut cells, 3), Badge);
    agrees(heap, &mut ledger, &tight_blocks(heap)?, &filling_calls())
}

// Makes the calls, and then the last ones, over a cache on a table in the cells, and answers the coins.
fn coins_after(
    heap: Global,
    cells: &mut [(Outpoint, Coin)],
    last: &[(Call, Answered)],
) -> Result<Vec<(Outpoint, Coin)>, Fail> {
    let mut ledger = Ledger::new(cached_table(cells), Badge);
    agrees(heap, &mut ledger, &mixed_blocks(heap)?, &unflushed_calls())?;
    agrees(heap, &mut ledger, &[], last)?;
    Ok(state_of(heap, &mut ledger)?.coins)
}

// The cells have the ledger's coins after a flush, and not before.
#[test]
fn flushing(rt: HostRuntime) -> Result<(), Fail> {
    let heap = rt.alloc();
    let mut cells = [CELL; 8];
    let coins = coins_after(heap, &mut cells, &[])?;
    assert!(rt; coins.len() == 3);
    assert!(rt; !cells.starts_with(coins.as_slice()));
    let coins = coins_after(heap, &mut cells, &[(Call::Flush, DONE)])?;
    assert!(rt; coins.len() == 3);
    assert!(rt; cells.starts_with(coins.as_slice()));
    Ok(())
}
