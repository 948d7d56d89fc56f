// A quota over any view: as the view below, with a smaller capacity.
ghost use Rattle.std.specs.Prelude.{min, max, length};
ghost use Rattle.coinsview.specs.Made.{Means};
ghost use Rattle.coinsview.specs.Quota.{quota_view};

use crate::fault::ViewFault;
use crate::view::CoinsView;
use coins::coin::Coin;
use coins::outpoint::Outpoint;

#[derive(Drop)]
pub struct Quota<V> {
    below: V,
    limit: usize,
}

impl<V: CoinsView> Quota<V> {
    // The capacity is the smaller of `limit` and the capacity below, or the count below where that is more.
    pub fn new(below: V, limit: usize) -> Quota<V>
        requires { V.CoinsView.ok below }
        ensures { Means (quota_view V.CoinsView) (max (min limit (V.CoinsView.most below)) (length (V.CoinsView.coins below))) (V.CoinsView.coins below) (V.CoinsView.bottom below) result }
    {
        let limit = limit.min(below.capacity()).max(below.count());
        Quota { below, limit }
    }
}

// `quota_view` has the ghost members all together; an `impl` gives each by its name.
impl<V: CoinsView> CoinsView for Quota<V> {
    ghost ok = { (quota_view V.CoinsView).ok };

    ghost most = { (quota_view V.CoinsView).most };

    ghost coins = { (quota_view V.CoinsView).coins };

    ghost bottom = { (quota_view V.CoinsView).bottom };

    ghost sorted = { (quota_view V.CoinsView).sorted };

    ghost few = { (quota_view V.CoinsView).few };

    ghost small = { (quota_view V.CoinsView).small };

    fn capacity(&self) -> usize {
        self.limit
    }

    fn count(&self) -> usize {
        self.below.count()
    }

    fn look(&mut self, at: &Outpoint) -> Option<Coin> {
        self.below.look(at)
    }

    fn next(&mut self, from: Option<&Outpoint>) -> Option<(Outpoint, Coin)> {
        self.below.next(from)
    }

    fn put(&mut self, at: Outpoint, coin: Coin) -> Result<(), ViewFault> {
        if self.count() < self.capacity() {
            return self.below.put(at, coin);
        }
        match self.below.look(&at) {
            Some(_) => Err(ViewFault::Exists),
            None => Err(ViewFault::Full),
        }
    }

    fn take(&mut self, at: &Outpoint) -> Option<Coin> {
        self.below.take(at)
    }

    fn flush(&mut self) {
        self.below.flush();
    }
}
