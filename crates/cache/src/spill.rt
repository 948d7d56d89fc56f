// The two walks of a spill over the entries.
ghost use Rattle.std.specs.Prelude.{◌≡◌};
ghost use Rattle.maps.specs.Layers.{Fits};
ghost use Rattle.maps.specs.Keyed.{outpoints};
ghost use Rattle.cache.specs.Rules.{marks, taken_below, put_below};

use coins::outpoint::Outpoint;
use coinsview::view::CoinsView;
use entries::table::Entry;

// Takes from below every outpoint of a dirty entry that is not fresh.
pub fn take_dirty<V: CoinsView>(below: &mut V, entries: &[(Outpoint, Entry)])
    requires { V.CoinsView.ok below.old }
    ensures ok { V.CoinsView.ok below.new }
    ensures fixed { V.CoinsView.most below.new ≡ V.CoinsView.most below.old }
    ensures map { V.CoinsView.coins below.new ≡ taken_below entries.now (V.CoinsView.coins below.old) }
{
    for (at, e) in entries {
        if e.dirty & !e.fresh {
            let _ = below.take(at);
        }
    }
}

// Puts every dirty coin below, which never refuses one.
pub fn put_dirty<V: CoinsView>(below: &mut V, entries: &[(Outpoint, Entry)])
    requires ok { V.CoinsView.ok below.old }
    requires fits { Fits outpoints marks (V.CoinsView.most below.old) entries.now (V.CoinsView.coins below.old) }
    ensures ok { V.CoinsView.ok below.new }
    ensures fixed { V.CoinsView.most below.new ≡ V.CoinsView.most below.old }
    ensures map { V.CoinsView.coins below.new ≡ put_below entries.now (V.CoinsView.coins below.old) }
{
    for (at, e) in entries {
        if let Some(coin) = e.coin {
            if e.dirty {
                let _ = below.put(*at, coin);
            }
        }
    }
}
