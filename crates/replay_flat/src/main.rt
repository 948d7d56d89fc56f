// The replayer: blocks.dat and a script from standard input, and the printout that they give.
#![tactic(auto)]

use replay::flat::{MOST_READ, printout_over_flat_table};
use std::fs::File;
use std::io::Read;
use std::process::ExitCode;

// The block file, or none and a message on standard error.
fn read_blocks(rt: &HostRuntime) -> anyhow::Result<Option<Vec<u8>>> {
    let mut bytes = Vec::new(rt.alloc());
    let read = match File::open(rt, "blocks.dat") {
        Ok(file) => file.take(MOST_READ).read_to_end(&mut bytes),
        Err(error) => Err(error),
    };
    match read {
        Ok(_) => Ok(Some(bytes)),
        Err(error) => {
            rt.eprintln(format_args!("replay_flat: cannot read blocks.dat: {error}"))?;
            Ok(None)
        }
    }
}

fn main(rt: HostRuntime) -> anyhow::Result<ExitCode> {
    let Some(blocks) = read_blocks(&rt)? else {
        return Ok(ExitCode::FAILURE);
    };
    let mut script = Vec::new(rt.alloc());
    rt.stdin().read_to_end(&mut script)?;
    rt.print(printout_over_flat_table(rt.alloc(), &blocks, &script)?)?;
    Ok(ExitCode::SUCCESS)
}
