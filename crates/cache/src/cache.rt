// A cache over any view: an entry's word first, else the map below.
ghost use Rattle.std.specs.Prelude.{◌≡◌, [], Err};
ghost use Rattle.std.specs.Option.{option_map};
ghost use Rattle.maps.specs.Keyed.{outpoints};
ghost use Rattle.maps.specs.Search.{Found};
ghost use Rattle.coinsview.specs.Made.{Means};
ghost use Rattle.coinsview.specs.Meaning.{coin_at, without, put_answer, put_map, next_in};
ghost use Rattle.entries.specs.Entries.{entry_at, with_entry};
ghost use Rattle.cache.specs.Kept.{Kept};
ghost use Rattle.cache.specs.Parts.{CacheOk, cache_view, entries_of, below_of, room_of, map_of};
ghost use Rattle.cache.specs.Rules.{with_room, below_with_room, room_under, put_entry, put_entries, put_under, take_entry, take_entries, take_under, look_entry, look_entries, spilled_below};

use crate::spill::{put_dirty, take_dirty};
use crate::walk::next_over;
use coins::coin::Coin;
use coins::outpoint::Outpoint;
use coinsview::fault::ViewFault;
use coinsview::view::CoinsView;
use entries::table::{Entry, EntryTable};

// The count is that of the cache's own map.
#[derive(Drop)]
pub struct Cache<V> {
    below: V,
    table: EntryTable,
    count: usize,
}

impl<V: CoinsView> Cache<V> {
    // An empty cache over a view.
    pub fn new(below: V) -> Cache<V>
        requires { V.CoinsView.ok below }
        ensures means { Means (cache_view V.CoinsView) (V.CoinsView.most below) (V.CoinsView.coins below) (V.CoinsView.bottom below) result }
        ensures entries { entries_of result ≡ [] }
    {
        let count = below.count();
        Cache {
            below,
            table: EntryTable::new(),
            count,
        }
    }

    // Writes the entries into the view below, and drops them.
    fn spill(&mut self)
        requires { CacheOk V.CoinsView self.old }
        ensures ok { V.CoinsView.ok self.new.below }
        ensures kept { Kept [] self.new.count (below_of V.CoinsView self.new) (room_of V.CoinsView self.new) }
        ensures entries { entries_of self.new ≡ [] }
        ensures written { below_of V.CoinsView self.new ≡ spilled_below (entries_of self.old) (below_of V.CoinsView self.old) }
        ensures map { below_of V.CoinsView self.new ≡ map_of V.CoinsView self.old }
        ensures fixed { room_of V.CoinsView self.new ≡ room_of V.CoinsView self.old }
        ensures count { self.new.count ≡ self.old.count }
    {
        take_dirty(&mut self.below, self.table.as_slice());
        put_dirty(&mut self.below, self.table.as_slice());
        self.table.clear();
    }

    // One entry more, after a spill where there are 64.
    fn enter(&mut self, i: usize, at: Outpoint, entry: Entry)
        requires well { CacheOk V.CoinsView self.old }
        requires here { Found outpoints at (entries_of self.old) (Err i) }
        ensures ok { V.CoinsView.ok self.new.below }
        ensures entries { entries_of self.new ≡ with_entry at entry (with_room (entries_of self.old)) }
        ensures below { below_of V.CoinsView self.new ≡ below_with_room (entries_of self.old) (below_of V.CoinsView self.old) }
        ensures fixed { room_of V.CoinsView self.new ≡ room_of V.CoinsView self.old }
        ensures count { self.new.count ≡ self.old.count }
    {
        if self.table.has_room() {
            self.table.add(i, at, entry);
        } else {
            self.spill(); // no entry is left
            self.table.add(0, at, entry);
        }
    }

    // Where the search for an outpoint's entry ends, and its coin: what the entry says, or else what is below.
    fn seek(&mut self, at: &Outpoint) -> (Result<usize, usize>, Option<Coin>)
        requires { CacheOk V.CoinsView self.old }
        ensures well { CacheOk V.CoinsView self.new }
        ensures here { Found outpoints at.now (entries_of self.new) result.0 }
        ensures value { result.1 ≡ coin_at at.now (map_of V.CoinsView self.old) }
        ensures entries { entries_of self.new ≡ entries_of self.old }
        ensures below { below_of V.CoinsView self.new ≡ below_of V.CoinsView self.old }
        ensures map { map_of V.CoinsView self.new ≡ map_of V.CoinsView self.old }
        ensures fixed { room_of V.CoinsView self.new ≡ room_of V.CoinsView self.old }
        ensures count { self.new.count ≡ self.old.count }
    {
        match self.table.find(at) {
            Ok(i) => (Ok(i), self.table.entry(i, at).coin),
            Err(i) => (Err(i), self.below.look(at)),
        }
    }

    // A coin that was found enters without flags, where it has no entry and there is room.
    fn keep(&mut self, place: Result<usize, usize>, at: &Outpoint, coin: Coin)
        requires { Found outpoints at.now (entries_of self.old) place }
        ensures entries { entries_of self.new ≡ look_entry (entry_at at.now (entries_of self.old)) at.now coin (entries_of self.old) }
        ensures below { self.new.below ≡ self.old.below }
        ensures count { self.new.count ≡ self.old.count }
    {
        match place {
            Ok(_) => {}
            Err(i) => {
                if self.table.has_room() {
                    self.table.add(i, *at, Entry::clean(coin));
                }
            }
        }
    }

    // A coin is written where the search for its outpoint ended.
    fn write(&mut self, place: Result<usize, usize>, at: Outpoint, coin: Coin)
        requires well { CacheOk V.CoinsView self.old }
        requires here { Found outpoints at (entries_of self.old) place }
        ensures ok { V.CoinsView.ok self.new.below }
        ensures entries { entries_of self.new ≡ put_entry (entry_at at (entries_of self.old)) at coin (entries_of self.old) }
        ensures below { below_of V.CoinsView self.new ≡ room_under (entry_at at (entries_of self.old)) (entries_of self.old) (below_of V.CoinsView self.old) }
        ensures fixed { room_of V.CoinsView self.new ≡ room_of V.CoinsView self.old }
        ensures count { self.new.count ≡ self.old.count }
    {
        match place {
            Ok(i) => self.table.replace(i, &at, coin),
            Err(i) => self.enter(i, at, Entry::created(coin)),
        }
    }

    // A coin is erased where the search for its outpoint ended.
    fn erase(&mut self, place: Result<usize, usize>, at: &Outpoint)
        requires well { CacheOk V.CoinsView self.old }
        requires here { Found outpoints at.now (entries_of self.old) place }
        ensures ok { V.CoinsView.ok self.new.below }
        ensures entries { entries_of self.new ≡ take_entry (entry_at at.now (entries_of self.old)) at.now (entries_of self.old) }
        ensures below { below_of V.CoinsView self.new ≡ room_under (entry_at at.now (entries_of self.old)) (entries_of self.old) (below_of V.CoinsView self.old) }
        ensures fixed { room_of V.CoinsView self.new ≡ room_of V.CoinsView self.old }
        ensures count { self.new.count ≡ self.old.count }
    {
        match place {
            Ok(i) => {
                if self.table.entry(i, at).fresh {
                    self.table.drop_at(i, at);
                } else {
                    self.table.spend(i, at);
                }
            }
            Err(i) => self.enter(i, *at, Entry::spent()),
        }
    }
}

// `cache_view` has the ghost members all together; an `impl` gives each by its name.
impl<V: CoinsView> CoinsView for Cache<V> {
    ghost ok = { (cache_view V.CoinsView).ok };

    ghost most = { (cache_view V.CoinsView).most };

    ghost coins = { (cache_view V.CoinsView).coins };

    ghost bottom = { (cache_view V.CoinsView).bottom };

    ghost sorted = { (cache_view V.CoinsView).sorted };

    ghost few = { (cache_view V.CoinsView).few };

    ghost small = { (cache_view V.CoinsView).small };

    fn capacity(&self) -> usize {
        self.below.capacity()
    }

    fn count(&self) -> usize {
        self.count
    }

    fn look(&mut self, at: &Outpoint) -> Option<Coin>
        requires { CacheOk V.CoinsView self.old }
        ensures well { CacheOk V.CoinsView self.new }
        ensures fixed { room_of V.CoinsView self.new ≡ room_of V.CoinsView self.old }
        ensures map { map_of V.CoinsView self.new ≡ map_of V.CoinsView self.old }
        ensures value { result ≡ coin_at at.now (map_of V.CoinsView self.old) }
        ensures entries { entries_of self.new ≡ look_entries result at.now (entries_of self.old) }
        ensures below { below_of V.CoinsView self.new ≡ below_of V.CoinsView self.old }
    {
        let (place, coin) = self.seek(at);
        let coin = coin?;
        self.keep(place, at, coin);
        Some(coin)
    }

    fn next(&mut self, from: Option<&Outpoint>) -> Option<(Outpoint, Coin)>
        requires { CacheOk V.CoinsView self.old }
        ensures well { CacheOk V.CoinsView self.new }
        ensures fixed { room_of V.CoinsView self.new ≡ room_of V.CoinsView self.old }
        ensures map { map_of V.CoinsView self.new ≡ map_of V.CoinsView self.old }
        ensures value { result ≡ next_in (option_map (λ x. x.now) from.entry) (map_of V.CoinsView self.old) }
        ensures entries { entries_of self.new ≡ entries_of self.old }
        ensures below { below_of V.CoinsView self.new ≡ below_of V.CoinsView self.old }
    {
        let start = self.table.above(from);
        next_over(&mut self.below, self.table.as_slice(), start, from.copied())
    }

    fn put(&mut self, at: Outpoint, coin: Coin) -> Result<(), ViewFault>
        requires { CacheOk V.CoinsView self.old }
        ensures well { CacheOk V.CoinsView self.new }
        ensures fixed { room_of V.CoinsView self.new ≡ room_of V.CoinsView self.old }
        ensures map { map_of V.CoinsView self.new ≡ put_map result at coin (map_of V.CoinsView self.old) }
        ensures value { result ≡ put_answer (room_of V.CoinsView self.old) at (map_of V.CoinsView self.old) }
        ensures entries { entries_of self.new ≡ put_entries result at coin (entries_of self.old) }
        ensures below { below_of V.CoinsView self.new ≡ put_under result at (entries_of self.old) (below_of V.CoinsView self.old) }
    {
        let (place, found) = self.seek(&at);
        if found.is_some() {
            return Err(ViewFault::Exists);
        }
        if self.count >= self.capacity() {
            return Err(ViewFault::Full);
        }
        self.write(place, at, coin);
        self.count += 1;
        Ok(())
    }

    fn take(&mut self, at: &Outpoint) -> Option<Coin>
        requires { CacheOk V.CoinsView self.old }
        ensures well { CacheOk V.CoinsView self.new }
        ensures fixed { room_of V.CoinsView self.new ≡ room_of V.CoinsView self.old }
        ensures map { map_of V.CoinsView self.new ≡ without at.now (map_of V.CoinsView self.old) }
        ensures value { result ≡ coin_at at.now (map_of V.CoinsView self.old) }
        ensures entries { entries_of self.new ≡ take_entries result at.now (entries_of self.old) }
        ensures below { below_of V.CoinsView self.new ≡ take_under result at.now (entries_of self.old) (below_of V.CoinsView self.old) }
    {
        let (place, coin) = self.seek(at);
        let coin = coin?;
        self.erase(place, at);
        self.count -= 1;
        Some(coin)
    }

    fn flush(&mut self)
        requires { CacheOk V.CoinsView self.old }
        ensures well { CacheOk V.CoinsView self.new }
        ensures fixed { room_of V.CoinsView self.new ≡ room_of V.CoinsView self.old }
        ensures map { map_of V.CoinsView self.new ≡ map_of V.CoinsView self.old }
        ensures bottom { V.CoinsView.bottom self.new.below ≡ map_of V.CoinsView self.old }
        ensures entries { entries_of self.new ≡ [] }
        ensures below { below_of V.CoinsView self.new ≡ spilled_below (entries_of self.old) (below_of V.CoinsView self.old) }
    {
        self.spill(); // the view below has the map
        self.below.flush();
    }
}
