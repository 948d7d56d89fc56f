// A run of a script over a block file, one line at a time.
ghost use Rattle.std.specs.Prelude.{◌+◌, ◌^◌, ◌<◌, length};

mod steps;

use blockform::file::FileReader;

// The block file with its place, what is left of the script, and how many of its lines are done.
#[derive(Drop)]
pub struct Session<'a> {
    file: FileReader<'a>,
    rest: &'a [u8],
    number: u64,
    ghost counts: { number + length rest.now < 2 ^ 64 },
}
