// A script, cut into its lines.
ghost use Rattle.std.specs.Prelude.{◌≡◌, ◌<◌, [], ◌∷◌, length, MatchOption, ◌==◌};
ghost use Rattle.std.specs.List.{position};
ghost use Rattle.script.specs.Cuts.{lines_of, kept, held, CutsAsWritten};

// The most bytes of a line, its LF aside.
pub const LONGEST_LINE: usize = 80;

// The place of the first LF.
fn line_end(script: &[u8]) -> Option<usize>
    ensures { result ≡ position (λ c. c == 10) script.now }
{
    script.iter().position(|byte| *byte == b'\n')
}

// A line, where it is not too long.
fn within_limit(line: &[u8]) -> Option<&[u8]>
    ensures { held result ≡ kept line.now }
{
    (line.len() <= LONGEST_LINE).then_some(line)
}

// The first line without its LF, or None in its place where it is too long or has no LF, and what stands after it.
// None at the script's end.
#[tactic(auto, using(crate::proofs::Written::cuts), unfolding(crate::specs::Cuts::lines_from))]
pub fn cut(script: &[u8]) -> Option<(Option<&[u8]>, &[u8])>
    ensures line { MatchOption result (lines_of script.now ≡ []) (λ p. (lines_of script.now ≡ held p.0 ∷ lines_of p.1.now) × (length p.1.now < length script.now)) }
    ensures written { CutsAsWritten }
{
    match line_end(script) {
        Some(end) => Some((within_limit(&script[..end]), &script[end + 1..])),
        None if script.is_empty() => None,
        None => Some((None, &[])),
    }
}
