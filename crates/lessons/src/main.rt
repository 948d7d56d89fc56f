// Replays every lesson over a flat table, and prints each printout under the lesson's name.
#![tactic(auto)]

use replay::flat::{MOST_READ, printout_over_flat_table};
use std::fs::File;
use std::io::Read;

// The folders of the lessons, in the order of their names.
const LESSONS: [&str; 8] = [
    "again",
    "basic",
    "edges",
    "halving",
    "limit",
    "oversize",
    "refusals",
    "reorganisation",
];

// The bytes of a lesson's file, the first `most` of them.
fn read_file(rt: &HostRuntime, lesson: &str, file: &str, most: u64) -> anyhow::Result<Vec<u8>> {
    let heap = rt.alloc();
    let path = format!(in heap; "{lesson}/{file}")?;
    let mut bytes = Vec::new(heap);
    File::open(rt, path)?.take(most).read_to_end(&mut bytes)?;
    Ok(bytes)
}

// Prints the lesson's name and its printout.
fn replay_lesson(rt: &HostRuntime, lesson: &str) -> anyhow::Result<()> {
    let blocks = read_file(rt, lesson, "blocks.dat", MOST_READ)?;
    let script = read_file(rt, lesson, "script", u64::MAX)?;
    println!(rt; "lesson {lesson}")?;
    rt.print(printout_over_flat_table(rt.alloc(), &blocks, &script)?)?;
    Ok(())
}

fn main(rt: HostRuntime) -> anyhow::Result<()> {
    for lesson in LESSONS {
        replay_lesson(&rt, lesson)?;
    }
    Ok(())
}
