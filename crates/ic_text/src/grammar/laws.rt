ghost use Rattle.std.specs.Prelude.{◌≡◌, ℕ, List};
ghost use Rattle.ic_theory.specs.Starts.{Start, IsProper};
ghost use Rattle.ic_text.specs.Grammar.{Denotes};

/// A text denotes at most one start.
pub fn texts_denote_one_start()
    ensures { (text : List ℕ) (s t : Start) → Denotes text s → Denotes text t → s ≡ t }
{}

/// What a text denotes is proper: each port of each agent has exactly one link end, each name one or two, and
/// nothing else has any.
pub fn starts_are_proper()
    ensures { (text : List ℕ) (s : Start) → Denotes text s → IsProper s }
{}
