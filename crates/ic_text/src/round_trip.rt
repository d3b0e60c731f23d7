//! A printed text, read again: the same net, and the same bytes.

ghost use Rattle.std.specs.Prelude.{◌≡◌, ℕ, [], ◌+◌, ◌*◌, ◌^◌, ◌<◌, List, length};
ghost use Rattle.ic_name.specs.Events.{Event};
ghost use Rattle.ic_theory.specs.Starts.{Start};
ghost use Rattle.ic_theory.specs.Firings.{IsFired};
ghost use Rattle.ic_theory.specs.Nets.{IsSameNet, net_of};
ghost use Rattle.ic_theory.specs.Listed.{ListedNet, IsListing, shown};
ghost use Rattle.ic_text.specs.Grammar.{Denotes};
ghost use Rattle.ic_text.specs.Faults.{Stands};
ghost use Rattle.ic_text.specs.declared.grammar.refusal.Refusal.{Refusal as Fault};
ghost use Rattle.ic_text.specs.NetText.{net_text};
ghost use Rattle.ic_text.specs.Printable.{IsPrintable, IsWithinLimits};
ghost use Rattle.ic_text.specs.ReadBack.{IsReadBack};
ghost use Rattle.ic_text.specs.Reread.{IsReread};

/// Whatever net firings leave over the start of a text can be printed, with the names of that start.
pub fn printable()
    ensures { (text : List ℕ) (s : Start) (es : List Event) (l : ListedNet) → Denotes text s → IsFired s es → IsListing l → IsSameNet (shown l) (net_of s es) → IsPrintable s.names l }
{}

/// The text printed for a net denotes a start, if the net's wires and rings are few enough to be numbered.
pub fn denotes()
    ensures { (names : List (List ℕ)) (l : ListedNet) → IsPrintable names l → 3 * length l.agents + l.rings < 2 ^ 64 → (s : Start) × Denotes (net_text names l) s }
{}

/// A printed text within the reader's limits has no fault.
pub fn faultless()
    ensures { (names : List (List ℕ)) (l : ListedNet) → IsPrintable names l → IsWithinLimits names l → (f : Fault) → Stands (net_text names l) f → ⊥ }
{}

/// The start that the text printed for a net denotes has that net: agents numbered by their lines, free names by
/// their bytes.
pub fn reread()
    ensures { (names : List (List ℕ)) (l : ListedNet) (s : Start) → IsPrintable names l → Denotes (net_text names l) s → IsReread names l s }
{}

/// The net that the text printed for a net denotes is printed by the same bytes.
pub fn same_bytes()
    ensures { (names : List (List ℕ)) (l m : ListedNet) (s : Start) → IsPrintable names l → Denotes (net_text names l) s → IsListing m → IsSameNet (shown m) (net_of s []) → net_text s.names m ≡ net_text names l }
{}

/// Whatever net firings leave over the start of a text is printed, within the reader's limits, as a text without faults,
/// which denotes a start that has the same net and is printed by the same bytes.
pub fn round_trip()
    ensures { (text : List ℕ) (s : Start) (es : List Event) (l : ListedNet) → Denotes text s → IsFired s es → IsListing l → IsSameNet (shown l) (net_of s es) → IsWithinLimits s.names l → IsReadBack s.names l }
{}
