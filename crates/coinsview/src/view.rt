// A coins view, by what it means.
ghost use Rattle.std.specs.Prelude.{◌≡◌, ℕ, ◌≤◌, length};
ghost use Rattle.std.specs.Option.{option_map};
ghost use Rattle.maps.specs.Maps.{Sorted};
ghost use Rattle.maps.specs.Keyed.{outpoints};
ghost use Rattle.coinsview.specs.Meaning.{Coins, coin_at, without, put_answer, put_map, next_in};

use crate::fault::ViewFault;
use coins::coin::Coin;
use coins::outpoint::Outpoint;

// Pairs outpoints with coins, at most `most` of them. Nothing is refused but a put; a question, a refusal and a flush leave
// the map. Only flush says what the bottom map is; any other call may move it.
pub trait CoinsView {
    // Links, flags and counts are in order: making gives it, each call needs it and keeps it.
    ghost ok: { Self → Type 0 };

    // The capacity, which no call changes.
    ghost most: { Self → ℕ };

    // The map.
    ghost coins: { Self → Coins };

    // What the base at the foot of a pile holds.
    ghost bottom: { Self → Coins };

    // The map is in the order of the outpoints, has no more pairs than the capacity, and that is at most 4,096.
    ghost sorted: { (s : Self) → ok s → Sorted outpoints (coins s) };

    ghost few: { (s : Self) → ok s → length (coins s) ≤ most s };

    ghost small: { (s : Self) → ok s → most s ≤ 4096 };

    // The capacity.
    fn capacity(&self) -> usize
        requires { ok self.now }
        ensures { result ≡ most self.now };

    // How many coins there are.
    fn count(&self) -> usize
        requires { ok self.now }
        ensures { result ≡ length (coins self.now) };

    // The coin of an outpoint.
    fn look(&mut self, at: &Outpoint) -> Option<Coin>
        requires { ok self.old }
        ensures well { ok self.new }
        ensures fixed { most self.new ≡ most self.old }
        ensures map { coins self.new ≡ coins self.old }
        ensures value { result ≡ coin_at at.now (coins self.old) };

    // The least outpoint above another, or of all, with its coin.
    fn next(&mut self, from: Option<&Outpoint>) -> Option<(Outpoint, Coin)>
        requires { ok self.old }
        ensures well { ok self.new }
        ensures fixed { most self.new ≡ most self.old }
        ensures map { coins self.new ≡ coins self.old }
        ensures value { result ≡ next_in (option_map (λ x. x.now) from.entry) (coins self.old) };

    // Adds a pair, unless the outpoint has a coin or the view is full.
    fn put(&mut self, at: Outpoint, coin: Coin) -> Result<(), ViewFault>
        requires { ok self.old }
        ensures well { ok self.new }
        ensures fixed { most self.new ≡ most self.old }
        ensures map { coins self.new ≡ put_map result at coin (coins self.old) }
        ensures value { result ≡ put_answer (most self.old) at (coins self.old) };

    // Removes the pair of an outpoint, and gives its coin.
    fn take(&mut self, at: &Outpoint) -> Option<Coin>
        requires { ok self.old }
        ensures well { ok self.new }
        ensures fixed { most self.new ≡ most self.old }
        ensures map { coins self.new ≡ without at.now (coins self.old) }
        ensures value { result ≡ coin_at at.now (coins self.old) };

    // Makes the bottom map equal to the map.
    fn flush(&mut self)
        requires { ok self.old }
        ensures well { ok self.new }
        ensures fixed { most self.new ≡ most self.old }
        ensures map { coins self.new ≡ coins self.old }
        ensures bottom { bottom self.new ≡ coins self.old };
}
