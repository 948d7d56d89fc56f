// The walk for the next pair of entries over a view.
ghost use Rattle.std.specs.Prelude.{◌≡◌, ◌≤◌, length};
ghost use Rattle.std.specs.List.{slice_get};
ghost use Rattle.maps.specs.Maps.{Sorted, next_of};
ghost use Rattle.maps.specs.Keyed.{outpoints};
ghost use Rattle.cache.specs.Rules.{over_below};
ghost use Rattle.cache.specs.Walk.{comes_before};

use coins::coin::Coin;
use coins::outpoint::Outpoint;
use coinsview::view::CoinsView;
use entries::table::Entry;

// Whether the pair found below comes before an outpoint.
fn before(found: &Option<(Outpoint, Coin)>, at: &Outpoint) -> bool
    ensures { result ≡ comes_before found.now at.now }
{
    found.is_some_and(|pair| pair.0 < *at)
}

// The least pair above an outpoint that the entries say over the view below; `start` is the place of the first entry above it.
pub fn next_over<V: CoinsView>(
    below: &mut V,
    entries: &[(Outpoint, Entry)],
    start: usize,
    from: Option<Outpoint>,
) -> Option<(Outpoint, Coin)>
    requires ok { V.CoinsView.ok below.old }
    requires sorted { Sorted outpoints entries.now }
    requires within { start ≤ length entries.now }
    requires first { next_of outpoints from entries.now ≡ slice_get entries.now start }
    ensures ok { V.CoinsView.ok below.new }
    ensures fixed { V.CoinsView.most below.new ≡ V.CoinsView.most below.old }
    ensures map { V.CoinsView.coins below.new ≡ V.CoinsView.coins below.old }
    ensures value { result ≡ next_of outpoints from (over_below entries.now (V.CoinsView.coins below.old)) }
{
    let mut last = from;
    for (at, e) in &entries[start..] {
        let found = below.next(last.as_ref());
        if before(&found, at) {
            return found;
        }
        if let Some(coin) = e.coin {
            return Some((*at, coin));
        }
        last = Some(*at);
    }
    below.next(last.as_ref())
}
