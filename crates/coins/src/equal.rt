// When two locks, and two coins, are the same.
ghost use Rattle.std.specs.Prelude.{◌≡◌};
ghost use Rattle.coins.specs.Same.{same_lock, same_coin, SameIsEqual};
ghost use Rattle.coins.specs.declared.coin.Coin.{Coin};
ghost use Rattle.coins.specs.declared.coin.Lock.{Lock};

use crate::coin::{Coin, Lock};

// `==` on locks and coins tells whether they are the same, and the same is equal.
pub fn same_is_equal()
    ensures locks { (x y : Lock) → ⟦<Lock as PartialEq>⟧.eq x y ≡ same_lock x y }
    ensures coins { (x y : Coin) → ⟦<Coin as PartialEq>⟧.eq x y ≡ same_coin x y }
    ensures decides { SameIsEqual }
{}
