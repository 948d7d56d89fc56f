// The records of a block file, each handed out as a part of the file.
ghost use Rattle.std.specs.Prelude.{◌≡◌, ◌+◌, ◌<◌, ◌≤◌, length, Ok, Err, MatchResult};
ghost use Rattle.blockfile.specs.File.{record_at, peek_at};
ghost use Rattle.blockfile.specs.declared.fault.FileFault.TheVariants.{OverSize};

use crate::fault::{FileFault, PeekFault};
use crate::file::FileReader;
use blockbytes::MAX_BLOCK;
use blockbytes::fault::FormFault;

// Puts a place back when it is dropped.
struct Restore<'a> {
    place: &'a mut usize,
    saved: usize,
}

impl Drop for Restore<'_> {
    fn drop(self)
        ensures { self.exit.0.now ≡ self.entry.saved }
    {
        let Restore { place, saved } = self;
        *place = saved;
    }
}

// The block of the record at `place`, which moves past the record.
fn take_record<'a>(file: &'a [u8], place: &mut usize) -> Result<&'a [u8], FileFault>
    ensures { MatchResult result (λ b. (record_at file.now place.old ≡ Ok b.now) × (place.new ≡ place.old + 4 + length b.now)) (λ e. (record_at file.now place.old ≡ Err e) × (place.new ≡ place.old)) }
{
    let at = *place;
    if file.len() <= at {
        return Err(FileFault::Ended);
    }
    let cut = FileFault::Cut { at };
    let (length, tail) = file.split_at(at).1.split_first_chunk::<4>().ok_or(cut)?;
    let size = u32::from_le_bytes(*length) as usize;
    let block = tail.get(..size).ok_or(cut)?;
    *place = at + 4 + size;
    Ok(block)
}

impl<'a> FileReader<'a> {
    // A reader at the first record.
    pub fn new(file: &'a [u8]) -> Result<FileReader<'a>, FileFault>
        ensures { MatchResult result (λ f. (length file.now ≤ 65536) × (f.file.now ≡ file.now) × (f.place ≡ 0)) (λ e. (65536 < length file.now) × (e ≡ OverSize)) }
    {
        if file.len() > MAX_BLOCK {
            return Err(FileFault::OverSize);
        }
        Ok(FileReader { file, place: 0 })
    }

    // The whole file.
    pub fn bytes(&self) -> &'a [u8]
        ensures { result.now ≡ self.now.file.now }
    {
        self.file
    }

    // The offset of the next record.
    pub fn place(&self) -> usize
        ensures { result ≡ self.now.place }
    {
        self.place
    }

    // The block of the next record, as a part of the file; the place moves past the record.
    pub fn next(&mut self) -> Result<&'a [u8], FileFault>
        ensures same { self.new.file.now ≡ self.old.file.now }
        ensures cases { MatchResult result (λ b. (record_at self.old.file.now self.old.place ≡ Ok b.now) × (self.new.place ≡ self.old.place + 4 + length b.now)) (λ e. (record_at self.old.file.now self.old.place ≡ Err e) × (self.new.place ≡ self.old.place)) }
    {
        take_record(self.file, &mut self.place)
    }

    // The two identifiers of the next record; the place stays.
    pub fn peek(&mut self) -> Result<(&'a [u8; 32], &'a [u8; 32]), PeekFault>
        ensures same { (self.new.file.now ≡ self.old.file.now) × (self.new.place ≡ self.old.place) }
        ensures cases { MatchResult result (λ p. peek_at self.old.file.now self.old.place ≡ Ok (p.0.now, p.1.now)) (λ e. peek_at self.old.file.now self.old.place ≡ Err e) }
    {
        let file = self.file;
        let saved = self.place;
        let guard = Restore {
            place: &mut self.place,
            saved,
        };
        let block = take_record(file, guard.place)?;
        let (id, rest) = block
            .split_first_chunk::<32>()
            .ok_or(FormFault::Cut { at: 0 })?;
        let (previous, _) = rest
            .split_first_chunk::<32>()
            .ok_or(FormFault::Cut { at: 32 })?;
        Ok((id, previous))
    }
}
