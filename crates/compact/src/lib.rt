// Compact sizes: a number in 1, 3, 5 or 9 bytes, always in the shortest form.
#![tactic(auto)]

ghost use Rattle.std.specs.Prelude.{◌≡◌, ℕ, ◌^◌, ◌<◌, ◌≤◌, List, ◌++◌, length, drop, Ok, Err, MatchResult, ◌≢◌};
ghost use Rattle.compact.specs.declared.SizeFault.TheVariants.{LongForm};
ghost use Rattle.compact.specs.Faults.{size_refusal, short_refusal};
ghost use Rattle.compact.specs.Compact.{encode, read_size, WrittenIsRead, ReadIsWritten, OneEncoding, SmallIsAByte, NothingIsCut, Examples};

use refusal::{Reason, Refusal};

// Why no number is read: bytes are missing, or the form is not the shortest.
#[derive(Clone, Copy, PartialEq, Eq, Debug)]
pub enum SizeFault {
    Cut,
    LongForm,
}

// The buffer has fewer bytes than the form of the number.
#[derive(Clone, Copy, PartialEq, Eq, Debug)]
pub struct ShortBuffer;

// The refusal of bytes that are read as a compact size; its place is the first of them.
impl From<SizeFault> for Refusal {
    ghost from_gives = { λ fault r. r ≡ size_refusal fault };

    fn from(fault: SizeFault) -> Refusal {
        match fault {
            SizeFault::Cut => Reason::Cut.into(),
            SizeFault::LongForm => Reason::LongForm.into(),
        }
    }
}

impl From<ShortBuffer> for Refusal {
    ghost from_gives = { λ buffer r. r ≡ short_refusal buffer };

    fn from(_: ShortBuffer) -> Refusal {
        Reason::Short.into()
    }
}

// A number whose form is the shortest for all from `least` on, with what follows it.
fn shortest(n: u64, least: u64, rest: &[u8]) -> Result<(u64, &[u8]), SizeFault>
    ensures { MatchResult result (λ p. (least ≤ n) × (p.0 ≡ n) × (p.1.now ≡ rest.now)) (λ e. (n < least) × (e ≡ LongForm)) }
{
    if n < least {
        return Err(SizeFault::LongForm);
    }
    Ok((n, rest))
}

// The number at the front of `s`, and what follows it.
pub fn read_size(s: &[u8]) -> Result<(u64, &[u8]), SizeFault>
    ensures answer { MatchResult result (λ p. read_size s.now ≡ Ok (p.0, p.1.now)) (λ e. read_size s.now ≡ Err e) }
    ensures reads { MatchResult result (λ p. s.now ≡ encode p.0 ++ p.1.now) (λ _. (n : ℕ) (rest : List ℕ) → n < 2 ^ 64 → s.now ≢ encode n ++ rest) }
{
    match s {
        [0xFD, a, b, rest @ ..] => {
            let n = u16::from_le_bytes([*a, *b]);
            shortest(u64::from(n), 0xFD, rest)
        }
        [0xFE, a, b, c, d, rest @ ..] => {
            let n = u32::from_le_bytes([*a, *b, *c, *d]);
            shortest(u64::from(n), 0x1_0000, rest)
        }
        [0xFF, a, b, c, d, e, f, g, h, rest @ ..] => {
            let n = u64::from_le_bytes([*a, *b, *c, *d, *e, *f, *g, *h]);
            shortest(n, 0x1_0000_0000, rest)
        }
        [0xFD..=0xFF, ..] | [] => Err(SizeFault::Cut),
        [n, rest @ ..] => Ok((u64::from(*n), rest)),
    }
}

// Writes `bytes` over the front of `out`, or nothing where they have no room.
fn fill_front<const N: usize>(out: &mut [u8], bytes: [u8; N]) -> Result<usize, ShortBuffer>
    ensures { MatchResult result (λ k. (k ≡ N) × (out.new ≡ bytes.entry ++ drop k out.old)) (λ _. (length out.old < N) × (out.new ≡ out.old)) }
{
    let Some(front) = out.first_chunk_mut::<N>() else {
        return Err(ShortBuffer);
    };
    *front = bytes;
    Ok(N)
}

// Writes `n` over the front of `out`, and answers how many bytes it took.
pub fn write_size(out: &mut [u8], n: u64) -> Result<usize, ShortBuffer>
    ensures { MatchResult result (λ k. (k ≡ length (encode n)) × (out.new ≡ encode n ++ drop k out.old)) (λ _. (length out.old < length (encode n)) × (out.new ≡ out.old)) }
{
    let [a, b, c, d, e, f, g, h] = n.to_le_bytes();
    if n < 0xFD {
        fill_front(out, [a])
    } else if n < 0x1_0000 {
        fill_front(out, [0xFD, a, b])
    } else if n < 0x1_0000_0000 {
        fill_front(out, [0xFE, a, b, c, d])
    } else {
        fill_front(out, [0xFF, a, b, c, d, e, f, g, h])
    }
}

// The laws of the two functions above: reading and writing are each other's inverse.
pub fn compact_sizes()
    ensures written { WrittenIsRead }
    ensures read { ReadIsWritten }
    ensures one { OneEncoding }
    ensures small { SmallIsAByte }
    ensures nothing { NothingIsCut }
    ensures examples { Examples }
{}
