// The check of a block's form: each function starts at a place and answers the place after, or the first fault.
// The place is a number that is handed on: a cursor that moves would have to say of each step what it leaves behind, where one equation says it here.
ghost use Rattle.std.specs.Prelude.{◌≡◌, ◌<◌};
ghost use Rattle.blockbytes.specs.Form.{field as field_form, count as count_form, times as times_form, counted as counted_form, input as input_form, output as output_form, transaction as transaction_form, block as block_form, Step, Computes};

use crate::fault::FormFault;
use compact::{SizeFault, read_size};

// Past a field of `n` bytes.
fn field(b: &[u8], at: usize, n: usize) -> Result<usize, FormFault>
    ensures { result ≡ field_form n b.now at }
{
    match at.checked_add(n) {
        Some(end) if end <= b.len() => Ok(end),
        _ => Err(FormFault::Cut { at }),
    }
}

// A count of at most `limit`, and the place after it. Such a count has one byte; the compact size tells the faults apart.
fn count(b: &[u8], at: usize, limit: u8) -> Result<(usize, usize), FormFault>
    requires { limit < 253 }
    ensures { result ≡ count_form limit b.now at }
{
    let Some(&n) = b.get(at) else {
        return Err(FormFault::Cut { at });
    };
    if n <= limit {
        return Ok((n as usize, at + 1));
    }
    // By `From` and `?` the place could not be added.
    match read_size(b.split_at(at).1) {
        Err(SizeFault::Cut) => Err(FormFault::Cut { at }),
        Err(SizeFault::LongForm) => Err(FormFault::LongForm { at }),
        Ok(_) => Err(FormFault::OverCount { at }),
    }
}

fn input(b: &[u8], at: usize) -> Result<usize, FormFault>
    ensures { result ≡ input_form b.now at }
{
    let at = field(b, at, 32)?;
    let at = field(b, at, 4)?;
    let (n, at) = count(b, at, 100)?;
    field(b, at, n)
}

// Past `n` steps, one after another.
fn times<F: Fn(usize) -> Result<usize, FormFault>>(
    n: usize,
    at: usize,
    step: F,
) -> Result<usize, FormFault>
    requires { F.IsAlwaysCallable step }
    ensures { (form : Step) → Computes (F.post step) form → result ≡ times_form n form at }
{
    let mut at = at;
    for _i in 0..n {
        at = step(at)?;
    }
    Ok(at)
}

// Past a count of at most 64, and that many steps.
fn counted<F: Fn(usize) -> Result<usize, FormFault>>(
    b: &[u8],
    at: usize,
    step: F,
) -> Result<usize, FormFault>
    requires { F.IsAlwaysCallable step }
    ensures { (form : Step) → Computes (F.post step) form → result ≡ counted_form form b.now at }
{
    let (n, at) = count(b, at, 64)?;
    times(n, at, step)
}

fn output(b: &[u8], at: usize) -> Result<usize, FormFault>
    ensures { result ≡ output_form b.now at }
{
    let at = field(b, at, 8)?;
    let at = field(b, at, 1)?;
    field(b, at, 8)
}

// Past a count of outputs, which have one size: one test where all are there, else one by one. With one by one alone, a full block takes a fifth more instructions.
fn outputs(b: &[u8], at: usize) -> Result<usize, FormFault>
    ensures { result ≡ counted_form (output_form b.now) b.now at }
{
    let (n, at) = count(b, at, 64)?;
    let end = at + 17 * n;
    if end <= b.len() {
        return Ok(end);
    }
    times(n, at, |at| output(b, at))
}

fn transaction(b: &[u8], at: usize) -> Result<usize, FormFault>
    ensures { result ≡ transaction_form b.now at }
{
    let at = field(b, at, 32)?;
    let at = counted(b, at, |at| input(b, at))?;
    outputs(b, at)
}

// Where the block ends that the bytes are, or the first fault.
pub fn block(b: &[u8]) -> Result<usize, FormFault>
    ensures { result ≡ block_form b.now }
{
    let at = field(b, 0, 32)?;
    let at = field(b, at, 32)?;
    let at = counted(b, at, |at| transaction(b, at))?;
    if at < b.len() {
        return Err(FormFault::Tail { at });
    }
    Ok(at)
}
