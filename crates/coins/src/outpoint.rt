// Outpoints: which output of which transaction, and their order.
ghost use Rattle.std.specs.Prelude.{◌≡◌, ◌≤◌, Some, Decides, refl};
ghost use Rattle.std.specs.Cmp.Lexicographic.{slice_cmp};
ghost use Rattle.std.specs.Ordering.{is_eq, nat_cmp};
ghost use Rattle.coins.specs.Order.{order, null_outpoint};
ghost use Rattle.coins.specs.Words.{word_at, words_of};
ghost use Rattle.coins.specs.Comparisons.{order_is_total};
ghost use Rattle.std.specs.Cmp.{partial_equiv_from_equiv, partial_order_from_total, eq_by_cmp_equiv};

use std::cmp::Ordering;

// Compared by words of eight bytes and not by a derive, which takes three times as many instructions.
#[derive(Clone, Copy, Default, Debug)]
pub struct Outpoint {
    pub id: [u8; 32],
    pub index: u32,
}

// Eight bytes of an identifier from a place on, as a number: the first byte weighs most.
fn word(id: &[u8; 32], place: usize) -> u64
    requires { place ≤ 24 }
    ensures { result ≡ word_at id.now place }
{
    u64::from_be_bytes([
        id[place],
        id[place + 1],
        id[place + 2],
        id[place + 3],
        id[place + 4],
        id[place + 5],
        id[place + 6],
        id[place + 7],
    ])
}

// An identifier's words.
fn words(id: &[u8; 32]) -> [u64; 4]
    ensures { result ≡ words_of id.now }
{
    [word(id, 0), word(id, 8), word(id, 16), word(id, 24)]
}

// The order of two identifiers, word by word. As two arrays of words, balances over 249 coins took half as long again.
fn compare_ids(a: &[u8; 32], b: &[u8; 32]) -> Ordering
    ensures { result ≡ slice_cmp nat_cmp a.now b.now }
{
    for k in 0..4 {
        let x = word(a, 8 * k);
        let y = word(b, 8 * k);
        if x != y {
            return x.cmp(&y);
        }
    }
    Ordering::Equal
}

// Whether two identifiers are equal.
fn same_ids(a: &[u8; 32], b: &[u8; 32]) -> bool
    ensures { result ≡ is_eq (slice_cmp nat_cmp a.now b.now) }
{
    words(a) == words(b)
}

impl PartialEq for Outpoint {
    ghost eq = { λ x y. is_eq (order x y) };

    ghost laws = { partial_equiv_from_equiv (eq_by_cmp_equiv order_is_total) };

    fn eq(&self, other: &Outpoint) -> bool
        ensures value { result ≡ is_eq (order self.now other.now) }
        ensures decides { Decides result (self.now ≡ other.now) }
    {
        self.index == other.index && same_ids(&self.id, &other.id)
    }
}

impl Eq for Outpoint {
    ghost laws = { eq_by_cmp_equiv order_is_total };
}

impl PartialOrd for Outpoint {
    ghost partial_cmp = { λ x y. Some (order x y) };

    ghost laws = { partial_order_from_total order_is_total };

    fn partial_cmp(&self, other: &Outpoint) -> Option<Ordering> {
        Some(self.cmp(other))
    }
}

impl Ord for Outpoint {
    ghost cmp = { λ x y. order x y };

    ghost total = { order_is_total };

    ghost matches_partial_cmp = { λ _ _. refl };

    ghost matches_eq = { λ _ _. refl };

    fn cmp(&self, other: &Outpoint) -> Ordering {
        compare_ids(&self.id, &other.id).then(self.index.cmp(&other.index))
    }
}

impl Outpoint {
    // The outpoint that a coinbase names in the place of an input: zero bytes and the greatest index.
    pub fn is_null(&self) -> bool
        ensures { Decides result (self.now ≡ null_outpoint) }
    {
        *self
            == Outpoint {
                id: [0; 32],
                index: 4_294_967_295,
            }
    }
}
