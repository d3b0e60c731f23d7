ghost use Rattle.std.specs.Prelude.{◌≡◌, ◌≤◌, length};
ghost use Rattle.std.specs.List.{prefix_len};
ghost use Rattle.ic_command.specs.Lines.{first_line, goes_on};

/// The number of bytes before the first line feed, or of all.
#[tactic(auto, using(crate::proofs::FirstLines::prefix_is, crate::proofs::FirstLines::first_within))]
pub(crate) fn line_len(bytes: &[u8]) -> usize
    ensures length { result ≡ length (first_line bytes.now) }
    ensures within { result ≤ length bytes.now }
{
    front_len(bytes)
}

fn front_len(bytes: &[u8]) -> usize
    ensures { result ≡ prefix_len goes_on bytes.now }
{
    bytes.iter().take_while(|byte| **byte != b'\n').count()
}
