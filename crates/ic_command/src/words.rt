ghost use Rattle.std.specs.Prelude.{◌≡◌, [], ◌∷◌, length, MatchOption, ◌≤◌};
ghost use Rattle.std.specs.List.{prefix_len};
ghost use Rattle.ic_command.specs.Words.{is_blank, is_solid, words};

fn is_blank(byte: u8) -> bool
    ensures { result ≡ is_blank byte }
{
    byte == b' ' || byte == b'\t'
}

#[tactic(auto, using(crate::proofs::WordFacts::prefix_within))]
fn blanks(bytes: &[u8]) -> usize
    ensures value { result ≡ prefix_len is_blank bytes.now }
    ensures within { result ≤ length bytes.now }
{
    bytes.iter().take_while(|byte| is_blank(**byte)).count()
}

#[tactic(auto, using(crate::proofs::WordFacts::prefix_within))]
fn solids(bytes: &[u8]) -> usize
    ensures value { result ≡ prefix_len is_solid bytes.now }
    ensures within { result ≤ length bytes.now }
{
    bytes.iter().take_while(|byte| !is_blank(**byte)).count()
}

/// The first word of a line, and what stands after it.
pub fn next_word(line: &[u8]) -> Option<(&[u8], &[u8])>
    ensures { MatchOption result (words line.now ≡ []) (λ x. words line.now ≡ x.0.now ∷ words x.1.now) }
{
    let (_, rest) = line.split_at(blanks(line));
    let (word, behind) = rest.split_at(solids(rest));
    if word.is_empty() {
        None
    } else {
        Some((word, behind))
    }
}
