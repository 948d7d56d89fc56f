// Coins views and spend conditions: the trait of views, the flat table, the quota and the cache, piles of them, and the
// conditions that open a lock.
#![tactic(auto)]

pub mod condition;
pub mod example;
pub mod pile;

pub use cache::cache::Cache;
pub use coins::coin::{Coin, Lock, MAX_VALUE};
pub use coins::outpoint::Outpoint;
pub use coinsview::fault::ViewFault;
pub use coinsview::laws::map_laws;
pub use coinsview::quota::Quota;
pub use coinsview::table::FlatTable;
pub use coinsview::view::CoinsView;
pub use condition::{Badge, Clock, Either, SpendCondition};
pub use entries::table::EntryTable;
