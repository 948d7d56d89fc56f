// The way back from a block, by its undo entries.
#![tactic(auto)]

ghost use Rattle.std.specs.Prelude.{◌≡◌, true, [], Some, None, MatchOption};
ghost use Rattle.undo.specs.Entries.{entries};
ghost use Rattle.unwinding.specs.Undoing.{undone, found, back};

pub mod chainstate;

use chainstate::Chainstate;
use coinsview::view::CoinsView;
use undo::Record;

// What unwinding a block gave: the identifier in its mark, and whether each entry found the coins as the block left them.
#[derive(Clone, Copy)]
pub struct Unwound {
    pub previous: [u8; 32],
    pub clean: bool,
}

impl<V: CoinsView> Chainstate<V> {
    // Takes one entry back: a coin that was made is taken, one that was spent is put. Says whether it was found as it was left.
    fn take_back(&mut self, entry: &Record) -> bool
        requires { V.CoinsView.ok self.old.view }
        ensures well { V.CoinsView.ok self.new.view }
        ensures fixed { V.CoinsView.most self.new.view ≡ V.CoinsView.most self.old.view }
        ensures kept { self.new.undo ≡ self.old.undo }
        ensures value { result ≡ found (V.CoinsView.most self.old.view) entry.now (V.CoinsView.coins self.old.view) }
        ensures map { V.CoinsView.coins self.new.view ≡ undone (V.CoinsView.most self.old.view) entry.now (V.CoinsView.coins self.old.view) }
    {
        match entry {
            Record::Mark(_) => true,
            Record::Made(at, coin) => self.view.take(at).is_some_and(|found| found == *coin),
            Record::Spent(at, coin) => self.view.put(*at, *coin).is_ok(),
        }
    }

    // Works from the newest entry to the first mark, and frees them. None where there is no mark.
    pub fn unwind(&mut self) -> Option<Unwound>
        requires { V.CoinsView.ok self.old.view }
        ensures well { V.CoinsView.ok self.new.view }
        ensures fixed { V.CoinsView.most self.new.view ≡ V.CoinsView.most self.old.view }
        ensures value { MatchOption result ((back (V.CoinsView.most self.old.view) (entries self.old.undo) (V.CoinsView.coins self.old.view) true ≡ None) × (entries self.new.undo ≡ [])) (λ u. back (V.CoinsView.most self.old.view) (entries self.old.undo) (V.CoinsView.coins self.old.view) true ≡ Some (record { previous = u.previous; below = entries self.new.undo; coins = V.CoinsView.coins self.new.view; clean = u.clean })) }
    {
        let mut clean = true;
        while let Some(entry) = self.undo.pop() {
            if let Record::Mark(previous) = entry {
                return Some(Unwound { previous, clean });
            }
            clean = self.take_back(&entry) && clean;
        }
        None
    }
}
