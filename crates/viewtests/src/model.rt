// A plain list of pairs in no order, which answers as a coins view does.
ghost use Rattle.std.specs.Prelude.{◌<◌, IfSome, vec_len};

use std::alloc::{AllocError, Global};
use views::{Coin, Outpoint, ViewFault};

#[derive(Drop)]
pub struct Model {
    pairs: Vec<(Outpoint, Coin)>,
    most: usize,
}

impl Model {
    pub fn new(heap: Global, most: usize) -> Model {
        Model {
            pairs: Vec::new(heap),
            most,
        }
    }

    pub fn count(&self) -> usize {
        self.pairs.len()
    }

    fn place(&self, at: &Outpoint) -> Option<usize>
        ensures { IfSome result (λ i. i < vec_len self.now.pairs) }
    {
        self.pairs.iter().position(|pair| pair.0 == *at)
    }

    pub fn look(&self, at: &Outpoint) -> Option<Coin> {
        let i = self.place(at)?;
        Some(self.pairs[i].1)
    }

    pub fn put(&mut self, at: Outpoint, coin: Coin) -> Result<Result<(), ViewFault>, AllocError> {
        if self.place(&at).is_some() {
            return Ok(Err(ViewFault::Exists));
        }
        if self.pairs.len() >= self.most {
            return Ok(Err(ViewFault::Full));
        }
        self.pairs.push((at, coin))?;
        Ok(Ok(()))
    }

    pub fn take(&mut self, at: &Outpoint) -> Option<Coin> {
        let i = self.place(at)?;
        Some(self.pairs.remove(i).1)
    }

    // No outpoint is before each outpoint.
    pub fn next(&self, from: Option<Outpoint>) -> Option<(Outpoint, Coin)> {
        self.pairs
            .iter()
            .copied()
            .filter(|pair| from < Some(pair.0))
            .min_by(|a, b| a.0.cmp(&b.0))
    }
}
