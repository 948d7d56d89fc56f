// Drives a view and the model through the same calls, and says whether they always agreed.
use crate::model::Model;
use std::alloc::{AllocError, Global};
use views::{Coin, CoinsView, Lock, Outpoint};

// The numbers of the lists: how many calls, and among how many outpoints.
#[derive(Clone, Copy)]
pub struct Lists {
    pub seed: u64,
    pub calls: usize,
    pub outpoints: u64,
}

fn stirred(seed: u64) -> u64 {
    seed.wrapping_mul(6_364_136_223_846_793_005)
        .wrapping_add(1_442_695_040_888_963_407)
}

// Outpoints that differ in the first byte, in the last, and in the index.
fn outpoint(n: u64) -> Outpoint {
    let mut id = [0; 32];
    id[0] = (n % 3) as u8;
    id[31] = (n / 3 % 16) as u8;
    Outpoint {
        id,
        index: (n / 48 % 1000) as u32,
    }
}

fn coin(n: u64) -> Coin {
    Coin {
        value: n % 1_000_000,
        lock: Lock {
            kind: (n % 256) as u8,
            argument: n,
        },
        height: (n % 1000) as u32,
        coinbase: n % 2 == 0,
    }
}

// The number picks the call, and so sets how often each comes: of 16 calls six puts, four takes, three looks, two nexts and a count.
fn call<V: CoinsView>(
    view: &mut V,
    model: &mut Model,
    n: u64,
    at: Outpoint,
) -> Result<bool, AllocError>
    requires { V.CoinsView.ok view.old }
    ensures { V.CoinsView.ok view.new }
{
    match n % 16 {
        0..=5 => {
            let said = model.put(at, coin(n))?;
            Ok(view.put(at, coin(n)) == said)
        }
        6..=9 => Ok(view.take(&at) == model.take(&at)),
        10..=12 => Ok(view.look(&at) == model.look(&at)),
        13 | 14 => Ok(view.next(Some(&at)) == model.next(Some(at))),
        _ => {
            if n % 64 == 15 {
                view.flush();
            }
            Ok(view.count() == model.count())
        }
    }
}

// Whether both give the same coins in the same order, from the first to the last.
pub fn walk<V: CoinsView>(view: &mut V, model: &Model) -> bool
    requires { V.CoinsView.ok view.old }
    ensures { V.CoinsView.ok view.new }
{
    let mut last = None;
    for _ in 0..model.count() {
        let found = view.next(last.as_ref());
        if found.is_none() || found != model.next(last) {
            return false;
        }
        last = found.map(|pair| pair.0);
    }
    view.next(last.as_ref()).is_none()
}

// Whether a view that is empty answers each of the calls as the model does, and holds the same coins after them.
pub fn agrees<V: CoinsView>(heap: Global, view: &mut V, lists: Lists) -> Result<bool, AllocError>
    requires { V.CoinsView.ok view.old }
    ensures { V.CoinsView.ok view.new }
{
    let mut model = Model::new(heap, view.capacity());
    let mut seed = lists.seed;
    for _ in 0..lists.calls {
        seed = stirred(seed);
        let n = seed >> 20;
        let at = outpoint(n / 16 % lists.outpoints.max(1));
        if !call(view, &mut model, n, at)? {
            return Ok(false);
        }
    }
    Ok(walk(view, &model))
}
