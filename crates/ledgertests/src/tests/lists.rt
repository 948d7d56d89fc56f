// Blocks and lists of calls with their answers.
use crate::block::{Pay, Spend, coinbase_block, spending_block, to_seven};
use crate::calls::{
    Answered, Call, DONE, NO_COIN, balance, coin, connected, disconnected, kept, look, next,
    refused, start, tip, worth,
};
use refusal::Reason;
use std::alloc::{AllocError, Global};

// Blocks of a coinbase alone, each after the one before it, by what they pay; fewer than 256.
fn coinbase_blocks<const N: usize>(
    heap: Global,
    claims: &[[Pay; N]],
) -> Result<Vec<Vec<u8>>, AllocError> {
    let mut blocks = Vec::new(heap);
    for (n, claims) in (0..u8::MAX).zip(claims) {
        blocks.push(coinbase_block(heap, n.saturating_add(1), n, claims)?)?;
    }
    Ok(blocks)
}

// Every call before the start, starts out of range, and starts after the first. The blocks are `plain_blocks`.
pub fn starting_calls() -> [(Call, Answered); 24] {
    [
        (Call::Connect(0), refused(Reason::NotStarted, 0, 0)),
        (Call::Disconnect, refused(Reason::NotStarted, 0, 0)),
        (Call::Settle(3), refused(Reason::NotStarted, 0, 0)),
        (Call::Flush, refused(Reason::NotStarted, 0, 0)),
        (Call::Tip, refused(Reason::NotStarted, 0, 0)),
        (look(101, 0), refused(Reason::NotStarted, 0, 0)),
        (Call::Next(None), refused(Reason::NotStarted, 0, 0)),
        (next(101, 0), refused(Reason::NotStarted, 0, 0)),
        (balance(1, 7), refused(Reason::NotStarted, 0, 0)),
        (start(0, 1, 1), refused(Reason::Parameter, 0, 0)),
        (start(210_001, 1, 1), refused(Reason::Parameter, 0, 0)),
        (start(1, 0, 1), refused(Reason::Parameter, 0, 0)),
        (start(1, 101, 1), refused(Reason::Parameter, 0, 0)),
        (start(1, 1, 0), refused(Reason::Parameter, 0, 0)),
        (start(1, 1, 4_294_967_296), refused(Reason::Parameter, 0, 0)),
        (Call::Tip, refused(Reason::NotStarted, 0, 0)),
        (start(210_000, 100, 4_294_967_295), DONE),
        (Call::Tip, tip(0, 0)),
        (start(1, 1, 1), refused(Reason::Started, 0, 0)),
        (Call::Connect(0), connected(1, 1, 0, 0, 4_999_999_999)),
        (start(0, 0, 0), refused(Reason::Started, 0, 0)),
        (Call::Connect(1), connected(2, 1, 0, 0, 4_999_999_998)),
        (Call::Tip, tip(2, 2)),
        (balance(1, 7), worth(2, 3)),
    ]
}

// A start over a view that holds a coin.
pub fn calls_over_coins() -> [(Call, Answered); 5] {
    [
        (start(1, 1, 1), refused(Reason::NotEmpty, 0, 0)),
        (start(0, 1, 1), refused(Reason::Parameter, 0, 0)),
        (Call::Tip, refused(Reason::NotStarted, 0, 0)),
        (Call::Flush, refused(Reason::NotStarted, 0, 0)),
        (start(1, 1, 1), refused(Reason::NotEmpty, 0, 0)),
    ]
}

// Block n of 4 pays n.
pub fn plain_blocks(heap: Global) -> Result<Vec<Vec<u8>>, AllocError> {
    coinbase_blocks(
        heap,
        &[[to_seven(1)], [to_seven(2)], [to_seven(3)], [to_seven(4)]],
    )
}

// Over `plain_blocks`.
pub fn settling_calls() -> [(Call, Answered); 23] {
    [
        (start(100, 1, 50), DONE),
        (Call::Settle(3), kept(0)),
        (Call::Disconnect, refused(Reason::Nothing, 0, 0)),
        (Call::Connect(0), connected(1, 1, 0, 0, 4_999_999_999)),
        (Call::Connect(1), connected(2, 1, 0, 0, 4_999_999_998)),
        (Call::Connect(2), connected(3, 1, 0, 0, 4_999_999_997)),
        (Call::Connect(3), connected(4, 1, 0, 0, 4_999_999_996)),
        (Call::Settle(9), kept(4)),
        (Call::Settle(2), kept(2)),
        (Call::Settle(3), kept(2)),
        (Call::Disconnect, disconnected(4)),
        (Call::Disconnect, disconnected(3)),
        (Call::Disconnect, refused(Reason::Nothing, 0, 0)),
        (Call::Tip, tip(2, 2)),
        (balance(1, 7), worth(2, 3)),
        (Call::Connect(2), connected(3, 1, 0, 0, 4_999_999_997)),
        (Call::Settle(0), kept(0)),
        (Call::Disconnect, refused(Reason::Nothing, 0, 0)),
        (Call::Tip, tip(3, 3)),
        (Call::Settle(18_446_744_073_709_551_615), kept(0)),
        (Call::Connect(3), connected(4, 1, 0, 0, 4_999_999_996)),
        (Call::Disconnect, disconnected(4)),
        (Call::Disconnect, refused(Reason::Nothing, 0, 0)),
    ]
}

// Eight blocks of 64 coins each: seven of them leave 57 of the 512 undo entries, and each needs 65.
pub fn wide_blocks(heap: Global) -> Result<Vec<Vec<u8>>, AllocError> {
    coinbase_blocks(heap, &[[to_seven(1); 64]; 8])
}

// Over `wide_blocks`: a settle frees entries for the block that found too few.
pub fn crowding_calls() -> [(Call, Answered); 16] {
    [
        (start(100, 1, 50), DONE),
        (Call::Connect(0), connected(1, 64, 0, 0, 4_999_999_936)),
        (Call::Connect(1), connected(2, 64, 0, 0, 4_999_999_936)),
        (Call::Connect(2), connected(3, 64, 0, 0, 4_999_999_936)),
        (Call::Connect(3), connected(4, 64, 0, 0, 4_999_999_936)),
        (Call::Connect(4), connected(5, 64, 0, 0, 4_999_999_936)),
        (Call::Connect(5), connected(6, 64, 0, 0, 4_999_999_936)),
        (Call::Connect(6), connected(7, 64, 0, 0, 4_999_999_936)),
        (Call::Connect(7), refused(Reason::LogFull, 0, 0)),
        (Call::Settle(6), kept(6)),
        (Call::Connect(7), connected(8, 64, 0, 0, 4_999_999_936)),
        (balance(1, 7), worth(512, 512)),
        (Call::Settle(1), kept(1)),
        (Call::Disconnect, disconnected(8)),
        (Call::Disconnect, refused(Reason::Nothing, 0, 0)),
        (balance(1, 7), worth(448, 448)),
    ]
}

const TWO_OF_ONE: [Spend; 2] = [
    Spend {
        tx: 101,
        index: 0,
        badge: 7,
    },
    Spend {
        tx: 101,
        index: 1,
        badge: 7,
    },
];

// For a view of three coins: block 1 makes two, and of the blocks 2 after it only one fits.
pub fn tight_blocks(heap: Global) -> Result<Vec<Vec<u8>>, AllocError> {
    let two = [to_seven(1000), to_seven(2000)];
    let one = [to_seven(10)];
    let mut blocks = Vec::new(heap);
    blocks.push(coinbase_block(heap, 1, 0, &two)?)?;
    blocks.push(coinbase_block(heap, 2, 1, &two)?)?;
    blocks.push(spending_block(heap, 2, 1, &one, &[TWO_OF_ONE[0]], &[to_seven(400); 2])?)?;
    blocks.push(spending_block(heap, 2, 1, &one, &TWO_OF_ONE, &[to_seven(400); 2])?)?;
    blocks.push(coinbase_block(heap, 2, 2, &two)?)?;
    blocks.push(coinbase_block(heap, 3, 2, &one)?)?;
    Ok(blocks)
}

// Over `tight_blocks`: a coin that is there already is told before a full view.
pub fn filling_calls() -> [(Call, Answered); 12] {
    [
        (start(100, 1, 50), DONE),
        (Call::Connect(0), connected(1, 2, 0, 0, 4_999_997_000)),
        (Call::Connect(1), refused(Reason::Full, 0, 1)),
        (Call::Connect(2), refused(Reason::Full, 1, 1)),
        (Call::Connect(3), connected(2, 3, 2, 2200, 5_000_002_190)),
        (Call::Connect(4), refused(Reason::Exists, 0, 0)),
        (Call::Connect(5), refused(Reason::Full, 0, 0)),
        (balance(1, 7), worth(3, 810)),
        (Call::Disconnect, disconnected(2)),
        (balance(1, 7), worth(2, 3000)),
        (Call::Connect(2), refused(Reason::Full, 1, 1)),
        (Call::Connect(3), connected(2, 3, 2, 2200, 5_000_002_190)),
    ]
}

// Outputs to badge 7, to badge 8, burned, and to the clock of height 5.
const KINDS: [Pay; 4] = [
    Pay {
        value: 1000,
        kind: 1,
        argument: 7,
    },
    Pay {
        value: 2000,
        kind: 1,
        argument: 8,
    },
    Pay {
        value: 3000,
        kind: 0,
        argument: 0,
    },
    Pay {
        value: 4000,
        kind: 2,
        argument: 5,
    },
];

const TWO_BADGES: [Spend; 2] = [
    Spend {
        tx: 101,
        index: 0,
        badge: 7,
    },
    Spend {
        tx: 101,
        index: 1,
        badge: 8,
    },
];

// A coin that is there and opens, and the clock's.
const THEN_SHUT: [Spend; 2] = [
    Spend {
        tx: 202,
        index: 0,
        badge: 7,
    },
    Spend {
        tx: 101,
        index: 3,
        badge: 5,
    },
];

// A coin that is there and opens, and one that is spent.
const THEN_MISSING: [Spend; 2] = [
    Spend {
        tx: 202,
        index: 0,
        badge: 7,
    },
    Spend {
        tx: 101,
        index: 0,
        badge: 7,
    },
];

// Two blocks that connect, and three that are refused after the first coin is taken or the last one made.
pub fn mixed_blocks(heap: Global) -> Result<Vec<Vec<u8>>, AllocError> {
    let five = [to_seven(5)];
    let mut blocks = Vec::new(heap);
    blocks.push(coinbase_block(heap, 1, 0, &KINDS)?)?;
    blocks.push(spending_block(heap, 2, 1, &five, &TWO_BADGES, &[to_seven(2500)])?)?;
    blocks.push(spending_block(heap, 3, 2, &five, &THEN_SHUT, &five)?)?;
    blocks.push(spending_block(heap, 3, 2, &five, &THEN_MISSING, &five)?)?;
    blocks.push(coinbase_block(heap, 3, 2, &[to_seven(5_000_000_001)])?)?;
    Ok(blocks)
}

// Over `mixed_blocks`: every reading at the start, after one block, after two, and on the way back.
pub fn reading_calls() -> [(Call, Answered); 38] {
    [
        (start(100, 1, 50), DONE),
        (Call::Next(None), NO_COIN),
        (look(101, 0), NO_COIN),
        (balance(1, 7), worth(0, 0)),
        (Call::Connect(0), connected(1, 3, 0, 0, 4_999_993_000)),
        (Call::Tip, tip(1, 1)),
        (Call::Next(None), coin(101, 0, 1000)),
        (next(101, 0), coin(101, 1, 2000)),
        (next(101, 1), coin(101, 3, 4000)),
        (next(101, 2), coin(101, 3, 4000)),
        (next(101, 3), NO_COIN),
        (next(50, 9), coin(101, 0, 1000)),
        (next(200, 0), NO_COIN),
        (look(101, 1), coin(101, 1, 2000)),
        (look(101, 2), NO_COIN),
        (balance(1, 8), worth(1, 2000)),
        (balance(2, 5), worth(1, 4000)),
        (balance(0, 0), worth(0, 0)),
        (Call::Connect(1), connected(2, 2, 2, 500, 5_000_000_495)),
        (Call::Tip, tip(2, 2)),
        (Call::Next(None), coin(101, 3, 4000)),
        (next(101, 3), coin(102, 0, 5)),
        (next(102, 0), coin(202, 0, 2500)),
        (next(202, 0), NO_COIN),
        (balance(1, 7), worth(2, 2505)),
        (Call::Connect(1), refused(Reason::Parent, 0, 0)),
        (Call::Connect(2), refused(Reason::Shut, 1, 1)),
        (Call::Connect(3), refused(Reason::Missing, 1, 1)),
        (Call::Connect(4), refused(Reason::Claim, 0, 0)),
        (Call::Flush, DONE),
        (Call::Disconnect, disconnected(2)),
        (Call::Tip, tip(1, 1)),
        (look(101, 0), coin(101, 0, 1000)),
        (look(202, 0), NO_COIN),
        (Call::Disconnect, disconnected(1)),
        (Call::Tip, tip(0, 0)),
        (Call::Next(None), NO_COIN),
        (Call::Disconnect, refused(Reason::Nothing, 0, 0)),
    ]
}

// Over `mixed_blocks`: coins that were flushed are spent.
pub fn unflushed_calls() -> [(Call, Answered); 4] {
    [
        (start(100, 1, 50), DONE),
        (Call::Connect(0), connected(1, 3, 0, 0, 4_999_993_000)),
        (Call::Flush, DONE),
        (Call::Connect(1), connected(2, 2, 2, 500, 5_000_000_495)),
    ]
}
