ghost use Rattle.std.specs.Prelude.{◌≡◌, ◌≢◌, ℕ, true, false, List, [], ◌∷◌, ◌++◌};
ghost use Rattle.std.specs.List.{flat_map};
ghost use Rattle.ic_command.specs.Lines.{has_feed};
ghost use Rattle.ic_session.specs.InputLines.{lines, whole_line};

/// Where an input is cut in lines: after each line feed. Together they are the input.
pub fn lines_end_at_feeds()
    ensures ended { (front behind : List ℕ) → has_feed front ≡ false → lines (front ++ 10 ∷ behind) ≡ record { bytes = front; ended = true } ∷ lines behind }
    ensures last { (front : List ℕ) → front ≢ [] → has_feed front ≡ false → lines front ≡ record { bytes = front; ended = false } ∷ [] }
    ensures none { lines [] ≡ [] }
    ensures whole { (input : List ℕ) → flat_map whole_line (lines input) ≡ input }
{}
