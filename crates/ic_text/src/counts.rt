//! What the first line of a printed text counts.

ghost use Rattle.std.specs.Prelude.{◌≡◌, List, length};
ghost use Rattle.ic_name.specs.declared.ports.Port.{Port};
ghost use Rattle.ic_path.specs.Rings.{HasEachOnce};
ghost use Rattle.ic_theory.specs.Listed.{ListedNet, IsListing, wires_of};
ghost use Rattle.ic_text.specs.Counts.{IsWireOf};

/// The number of wires in the first line is that of the net's wires: there is a list that has each wire once, by its two ports
/// with the lesser one first, and each such list is as long as that number.
pub fn counted_wires()
    ensures listed { (l : ListedNet) → IsListing l → (wires : List (Port × Port)) × HasEachOnce (IsWireOf l) wires }
    ensures counted { (l : ListedNet) (wires : List (Port × Port)) → IsListing l → HasEachOnce (IsWireOf l) wires → length wires ≡ wires_of l }
{}
