// Inputs and outputs, handed out one after another.
ghost use Rattle.std.specs.Prelude.{◌≡◌, ◌≤◌, length};
ghost use Rattle.std.specs.Iterator.{item_count};
ghost use Rattle.blockform.specs.Readers.{items_of, HandsItem};

use crate::reader::fields::item;
use crate::reader::{Item, Items};

impl<'a> Items<'a> {
    // How many are still to come.
    pub fn len(&self) -> usize
        ensures is { result ≡ length (items_of self.now) }
        ensures few { result ≤ 64 }
    {
        self.left
    }
}

impl<'a> Iterator for Items<'a> {
    type Item = Item<'a>;

    ghost next_gives = { HandsItem };

    ghost remaining = { item_count items_of };

    // The next input or output; `None` after the last.
    fn next(&mut self) -> Option<Item<'a>> {
        if self.left == 0 {
            return None;
        }
        let (next, end) = item(self.block, self.place, self.kind);
        self.place = end;
        self.left -= 1;
        Some(next)
    }
}
