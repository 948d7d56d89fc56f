// Making a chainstate.
ghost use Rattle.std.specs.Prelude.{◌≡◌, []};
ghost use Rattle.undo.specs.Entries.{entries};

use super::Chainstate;
use coinsview::view::CoinsView;
use undo::Undo;

impl<V: CoinsView> Chainstate<V> {
    // The coins of a view, with no undo entries.
    pub fn new(view: V) -> Chainstate<V>
        requires { V.CoinsView.ok view }
        ensures ok { V.CoinsView.ok result.view }
        ensures view { result.view ≡ view }
        ensures undo { entries result.undo ≡ [] }
    {
        Chainstate {
            view,
            undo: Undo::new(),
        }
    }
}
