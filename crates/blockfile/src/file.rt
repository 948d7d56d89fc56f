// A block file, and the place of its reader.
mod records;

// Reads a file of records; each is a 4-byte length and a block. The place counts from the front of the file, as offsets
// do, so it stands beside the whole of it.
#[derive(Drop)]
pub struct FileReader<'a> {
    file: &'a [u8],
    place: usize,
}
