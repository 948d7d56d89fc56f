// Piles of every kind, many outpoints and few, capacities of none, of a few and of many.
use crate::drive::Lists;
use crate::piles::{cache_agrees, pile_agrees, quota_agrees, table_agrees};
use std::test::Fail;
use views::{Coin, CoinsView, FlatTable, Lock, Outpoint, Quota, ViewFault};

// Cells that hold something, so that a table shows whether it empties them.
const CELL: (Outpoint, Coin) = (
    Outpoint {
        id: [9; 32],
        index: 9,
    },
    Coin {
        value: 9,
        lock: Lock {
            kind: 9,
            argument: 9,
        },
        height: 9,
        coinbase: true,
    },
);

const MANY: Lists = Lists {
    seed: 1,
    calls: 20_000,
    outpoints: 600,
};

const FEW: Lists = Lists {
    seed: 2,
    calls: 5_000,
    outpoints: 12,
};

#[test]
fn many_cells(rt: HostRuntime) -> Result<(), Fail> {
    let mut cells = [CELL; 512];
    assert!(rt; table_agrees(rt.alloc(), &mut cells, MANY)?, "table");
    assert!(rt; cache_agrees(rt.alloc(), &mut cells, MANY)?, "cache");
    assert!(rt;
        pile_agrees(rt.alloc(), &mut cells, 70, MANY)?,
        "pile of 70"
    );
    assert!(rt;
        quota_agrees(rt.alloc(), &mut cells, 300, MANY)?,
        "quota of 300"
    );
    Ok(())
}

#[test]
fn a_few_cells(rt: HostRuntime) -> Result<(), Fail> {
    let mut cells = [CELL; 5];
    assert!(rt; table_agrees(rt.alloc(), &mut cells, FEW)?, "table");
    assert!(rt; cache_agrees(rt.alloc(), &mut cells, FEW)?, "cache");
    assert!(rt; pile_agrees(rt.alloc(), &mut cells, 4, FEW)?, "pile of 4");
    assert!(rt; quota_agrees(rt.alloc(), &mut cells, 1, FEW)?, "quota of 1");
    Ok(())
}

#[test]
fn no_cells(rt: HostRuntime) -> Result<(), Fail> {
    let mut cells = [];
    assert!(rt; table_agrees(rt.alloc(), &mut cells, FEW)?, "table");
    assert!(rt; cache_agrees(rt.alloc(), &mut cells, FEW)?, "cache");
    assert!(rt; quota_agrees(rt.alloc(), &mut cells, 3, FEW)?, "quota of 3");
    Ok(())
}

#[test]
fn more_than_4096_cells(rt: HostRuntime) {
    let mut cells = [CELL; 4100];
    let table = FlatTable::new(&mut cells);
    assert!(rt; table.capacity() == 4096);
    assert!(rt; table.count() == 0);
}

// A quota over more coins than its own number has room for them, and for no more.
#[test]
fn quota_over_coins(rt: HostRuntime) {
    let mut cells = [CELL; 8];
    let mut table = FlatTable::new(&mut cells);
    assert!(rt; table.put(numbered(0), CELL.1).is_ok());
    assert!(rt; table.put(numbered(1), CELL.1).is_ok());
    let mut quota = Quota::new(table, 1);
    assert!(rt; quota.capacity() == 2);
    assert!(rt; quota.put(numbered(2), CELL.1) == Err(ViewFault::Full));
    assert!(rt; quota.put(numbered(0), CELL.1) == Err(ViewFault::Exists));
    assert!(rt; quota.take(&numbered(0)).is_some());
    assert!(rt; quota.put(numbered(2), CELL.1).is_ok());
}

fn numbered(index: u32) -> Outpoint {
    Outpoint { id: [0; 32], index }
}
