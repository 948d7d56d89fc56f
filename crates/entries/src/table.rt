// At most 64 entries in the order of their outpoints, in the value itself: no call asks for memory.
ghost use Rattle.std.specs.Prelude.{◌≡◌, ◌<◌, ◌≤◌, ◌↔◌, [], length, Some, Ok, Err, IsSome, IfSome, nat_lt, slice_index_or};
ghost use Rattle.std.specs.Borrow.{sem};
ghost use Rattle.std.specs.List.{slice_get};
ghost use Rattle.std.specs.Option.{option_map};
ghost use Rattle.maps.specs.Maps.{Sorted, next_of};
ghost use Rattle.maps.specs.Keyed.{outpoints};
ghost use Rattle.maps.specs.Search.{Found};
ghost use Rattle.maps.specs.Single.{sorted_single};
ghost use Rattle.entries.specs.Entries.{entry_at, with_entry, without_entry, clean, created, replaced, spent};
ghost use Rattle.entries.specs.Lent.{lends_slot};

use arrayvec::ArrayVec;
use coins::coin::Coin;
use coins::outpoint::Outpoint;
use maps::search::{above, find};

// The most entries of a cache.
pub const MOST_ENTRIES: usize = 64;

// What a cache says of an outpoint: a coin, or that it is spent. A dirty entry may differ from the view below; where one
// is fresh, the view below has no coin. The rules of a cache name the two flags, so they stay flags.
#[derive(Clone, Copy, Default)]
pub struct Entry {
    pub coin: Option<Coin>,
    pub dirty: bool,
    pub fresh: bool,
}

impl Entry {
    // A coin that stands below.
    pub fn clean(coin: Coin) -> Entry
        ensures { result ≡ clean coin }
    {
        Entry {
            coin: Some(coin),
            dirty: false,
            fresh: false,
        }
    }

    // A new coin, with none below.
    pub fn created(coin: Coin) -> Entry
        ensures { result ≡ created coin }
    {
        Entry {
            coin: Some(coin),
            dirty: true,
            fresh: true,
        }
    }

    // A new coin in the place of one that stands below.
    pub fn replaced(coin: Coin) -> Entry
        ensures { result ≡ replaced coin }
    {
        let created = Entry::created(coin);
        Entry {
            fresh: false,
            ..created
        }
    }

    // No coin, in the place of one that stands below.
    pub fn spent() -> Entry
        ensures { result ≡ spent }
    {
        Entry {
            coin: None,
            dirty: true,
            fresh: false,
        }
    }
}

// The entries in their places, apart from the table: who is lent one may write its outpoint too, and the table's order is
// to hold again before the table is used.
#[derive(Drop)]
pub struct Slots {
    pub entries: ArrayVec<(Outpoint, Entry), MOST_ENTRIES>,
}

impl Slots {
    // The entry at i, lent.
    fn lend(&mut self, i: usize) -> Option<&mut (Outpoint, Entry)>
        ensures* follows { sem 𝓛 (lends_slot self.entry i result) }
        ensures there { IsSome result ↔ (i < length self.old.entries.items) }
        ensures value { IfSome result (λ x. x.now ≡ slice_index_or self.old.entries.items i x.now) }
    {
        self.entries.get_mut(i)
    }
}

#[derive(Drop)]
pub struct EntryTable {
    pub slots: Slots,
    pub ghost few: { length slots.entries.items ≤ 64 },
    pub ghost sorted: { Sorted outpoints slots.entries.items } by { sorted_single outpoints slots.entries.items },
}

impl EntryTable {
    ghost use Rattle.entries.specs.Table.{entries_in};

    // No entries.
    pub fn new() -> EntryTable
        ensures { entries_in result ≡ [] }
    {
        let entries = ArrayVec::new();
        EntryTable {
            slots: Slots { entries },
        }
    }

    // The entries in their order.
    pub fn as_slice(&self) -> &[(Outpoint, Entry)]
        ensures { result.now ≡ entries_in self.now }
    {
        self.slots.entries.as_slice()
    }

    // Whether one entry more has a place.
    pub fn has_room(&self) -> bool
        ensures { result ≡ nat_lt (length (entries_in self.now)) 64 }
    {
        self.slots.entries.len() < MOST_ENTRIES
    }

    // The place of k, as `Ok` where it has an entry. Called, and not written into each caller: so written, connecting and taking back
    // small blocks took half as long again.
    #[inline(never)]
    pub fn find(&self, k: &Outpoint) -> Result<usize, usize>
        ensures { Found outpoints k.now (entries_in self.now) result }
    {
        find(self.as_slice(), k)
    }

    // The entry that a search for its outpoint found at i.
    pub fn entry(&self, i: usize, at: &Outpoint) -> Entry
        requires { Found outpoints at.now (entries_in self.now) (Ok i) }
        ensures { entry_at at.now (entries_in self.now) ≡ Some result }
    {
        self.as_slice()[i].1
    }

    // The place of the first entry above an outpoint, or of all.
    pub fn above(&self, from: Option<&Outpoint>) -> usize
        ensures within { result ≤ length (entries_in self.now) }
        ensures first { next_of outpoints (option_map (λ x. x.now) from.entry) (entries_in self.now) ≡ slice_get (entries_in self.now) result }
    {
        above(self.as_slice(), from)
    }

    // One entry more, at the place where a search for its outpoint ended.
    pub fn add(&mut self, i: usize, at: Outpoint, entry: Entry)
        requires here { Found outpoints at (entries_in self.old) (Err i) }
        requires room { length (entries_in self.old) < 64 }
        ensures { entries_in self.new ≡ with_entry at entry (entries_in self.old) }
    {
        self.slots.entries.insert(i, (at, entry));
    }

    // The entry that a search for its outpoint found at i is dropped.
    pub fn drop_at(&mut self, i: usize, at: &Outpoint)
        requires { Found outpoints at.now (entries_in self.old) (Ok i) }
        ensures { entries_in self.new ≡ without_entry at.now (entries_in self.old) }
    {
        let _ = self.slots.entries.remove(i);
    }

    // The entry that was found at i is written over.
    fn write(&mut self, i: usize, at: &Outpoint, entry: Entry)
        requires { Found outpoints at.now (entries_in self.old) (Ok i) }
        ensures { entries_in self.new ≡ with_entry at.now entry (entries_in self.old) }
    {
        if let Some(slot) = self.slots.lend(i) {
            slot.1 = entry;
        }
    }

    // The entry that was found at i gets a coin in the place of one that stands below.
    pub fn replace(&mut self, i: usize, at: &Outpoint, coin: Coin)
        requires { Found outpoints at.now (entries_in self.old) (Ok i) }
        ensures { entries_in self.new ≡ with_entry at.now (replaced coin) (entries_in self.old) }
    {
        self.write(i, at, Entry::replaced(coin));
    }

    // The entry that was found at i becomes spent.
    pub fn spend(&mut self, i: usize, at: &Outpoint)
        requires { Found outpoints at.now (entries_in self.old) (Ok i) }
        ensures { entries_in self.new ≡ with_entry at.now spent (entries_in self.old) }
    {
        self.write(i, at, Entry::spent());
    }

    // No entry is left.
    pub fn clear(&mut self)
        ensures { entries_in self.new ≡ [] }
    {
        self.slots.entries.clear();
    }
}
