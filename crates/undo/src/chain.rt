// The calls on the undo memory.
#![tactic(auto, unfolding(crate::specs::Entries::entries))]

ghost use Rattle.std.specs.Prelude.{◌≡◌, ◌+◌, ◌-◌, ◌<◌, ◌≤◌, true, false, [], ◌∷◌, reverse, length, drop, is_ok, MatchOption, nat_lt};
ghost use Rattle.std.specs.List.{All, AllWithin, HoldsAt};
ghost use Rattle.undo.specs.Entries.{entries, pushed, mark, newest};

use super::{LogFull, Record, Undo};
use arrayvec::ArrayVec;

impl Undo {
    pub fn new() -> Undo
        ensures { entries result ≡ [] }
    {
        Undo {
            records: ArrayVec::new(),
        }
    }

    // How many entries are free.
    pub fn free(&self) -> usize
        ensures { result ≡ 512 - length (entries self.now) }
    {
        self.records.remaining_capacity()
    }

    // One entry more, the newest, unless all are taken.
    pub fn push(&mut self, record: Record) -> Result<(), LogFull>
        ensures room { is_ok result ≡ nat_lt (length (entries self.old)) 512 }
        ensures after { entries self.new ≡ pushed «record» (entries self.old) }
    {
        self.records.try_push(record).map_err(|_| LogFull)
    }

    // Takes the newest entry off.
    pub fn pop(&mut self) -> Option<Record>
        ensures { MatchOption result ((entries self.old ≡ []) × (entries self.new ≡ [])) (λ x. entries self.old ≡ x ∷ entries self.new) }
    {
        self.records.pop()
    }

    // Where the entries of the newest blocks begin.
    fn start_of(&self, blocks: usize) -> usize
        ensures within { result ≤ length self.now.records.items }
        ensures place { newest blocks (entries self.now) ≡ reverse (drop result self.now.records.items) }
    {
        let mut at = self.records.len();
        for _block in 0..blocks {
            let Some(mark) = last_mark(&self.records[..at]) else {
                return 0;
            };
            at = mark;
        }
        at
    }

    // Frees the oldest `n` entries, and moves the others down. `drain`, which rotates the list, would cost 70 instructions more for each of those.
    fn free_oldest(&mut self, n: usize)
        requires { n ≤ length self.old.records.items }
        ensures { self.new.records.items ≡ drop n self.old.records.items }
    {
        let kept = self.records.len() - n;
        self.records.copy_within(n.., 0);
        self.records.truncate(kept);
    }

    // Keeps the entries of the newest blocks, and frees the others.
    pub fn keep(&mut self, blocks: usize)
        ensures { entries self.new ≡ newest blocks (entries self.old) }
    {
        let at = self.start_of(blocks);
        self.free_oldest(at);
    }
}

// The place of the last mark.
fn last_mark(records: &[Record]) -> Option<usize>
    ensures { MatchOption result (All (λ r. mark r ≡ false) records.now) (λ i. (i < length records.now) × HoldsAt (λ r. mark r ≡ true) records.now i × AllWithin (λ r. mark r ≡ false) records.now (i + 1) (length records.now)) }
{
    records
        .iter()
        .rposition(|record| matches!(record, Record::Mark(_)))
}
