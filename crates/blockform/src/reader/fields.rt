// The fields of well-formed bytes, read at a place.
ghost use Rattle.std.specs.Prelude.{◌≡◌, ◌+◌, ◌≤◌, true, length, take, drop, is_ok};
ghost use Rattle.blockbytes.specs.Form.{times, input as input_form};
ghost use Rattle.blockbytes.specs.Value.{spends, makes, encode_piece, PieceWithin};
ghost use Rattle.blockbytes.specs.Places.{input_at, input_end, output_at, end_of};
ghost use Rattle.blockform.specs.Kinds.{item as item_form, item_at, item_end};
ghost use Rattle.blockform.specs.Readers.{piece_of, offset_of};

use crate::reader::{Item, Kind};
use coins::coin::Lock;

// The `N` bytes at `at`.
pub fn array_at<const N: usize>(b: &[u8], at: usize) -> &[u8; N]
    requires { at + N ≤ length b.now }
    ensures { result.now ≡ take N (drop at b.now) }
{
    b[at..at + N].first_chunk::<N>().unwrap()
}

// The input at `at`, and where it ends.
fn input(b: &[u8], at: usize) -> (Item<'_>, usize)
    requires { input_end b.now at ≤ length b.now }
    ensures piece { piece_of result.0 ≡ spends (input_at b.now at) }
    ensures offset { offset_of result.0 ≡ at }
    ensures end { result.1 ≡ input_end b.now at }
{
    let id = array_at(b, at);
    let index = u32::from_le_bytes(*array_at(b, at + 32));
    let end = at + 37 + b[at + 36] as usize;
    let witness = &b[at + 37..end];
    (
        Item::Input {
            offset: at,
            id,
            index,
            witness,
        },
        end,
    )
}

// The output at `at`, and where it ends.
fn output(b: &[u8], at: usize) -> (Item<'_>, usize)
    requires { at + 17 ≤ length b.now }
    ensures piece { piece_of result.0 ≡ makes (output_at b.now at) }
    ensures offset { offset_of result.0 ≡ at }
    ensures end { result.1 ≡ at + 17 }
{
    let value = u64::from_le_bytes(*array_at(b, at));
    let lock = Lock {
        kind: b[at + 8],
        argument: u64::from_le_bytes(*array_at(b, at + 9)),
    };
    (
        Item::Output {
            offset: at,
            value,
            lock,
        },
        at + 17,
    )
}

// The input or output at `at`, and where it ends; one enum holds either.
pub fn item(b: &[u8], at: usize, kind: Kind) -> (Item<'_>, usize)
    requires { is_ok (item_form kind b.now at) ≡ true }
    ensures piece { piece_of result.0 ≡ item_at kind b.now at }
    ensures offset { offset_of result.0 ≡ at }
    ensures end { result.1 ≡ item_end kind b.now at }
    ensures within { PieceWithin (piece_of result.0) }
    ensures long { result.1 ≡ at + length (encode_piece (piece_of result.0)) }
{
    match kind {
        Kind::Input => input(b, at),
        Kind::Output => output(b, at),
    }
}

// Where `n` inputs end that begin at `at`.
pub fn past_inputs(b: &[u8], at: usize, n: usize) -> usize
    requires { is_ok (times n (input_form b.now) at) ≡ true }
    ensures { result ≡ end_of n (input_end b.now) at }
{
    let mut at = at;
    for _i in 0..n {
        at = at + 37 + b[at + 36] as usize;
    }
    at
}
