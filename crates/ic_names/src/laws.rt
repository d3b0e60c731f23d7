ghost use Rattle.std.specs.Prelude.{◌≡◌, ◌<◌, ◌≤◌, ◌^◌, ℕ, List};
ghost use Rattle.std.specs.declared.cmp.Ordering.TheVariants.{Less};
ghost use Rattle.ic_name.specs.Names.{Name, IsName, depth, name_cmp};
ghost use Rattle.ic_names.specs.Keys.{IsProper, key_of};
ghost use Rattle.ic_names.specs.Tables.{StandsAt, IsTable, Enters, GrowsUpTo};

/// The order of keys never goes against the order of names: the name with the lesser key comes first, and names of one
/// key have one depth and one start number. That holds however many digits names may have; with up to 16,383 digits
/// a key fits in 64 bits.
pub fn key_order()
    ensures proper { (n : Name) → IsName n → IsProper n }
    ensures less { (a b : Name) → IsProper a → IsProper b → key_of a < key_of b → name_cmp a b ≡ Less }
    ensures tied { (a b : Name) → IsProper a → IsProper b → key_of a ≡ key_of b → (depth a ≡ depth b) × (a.start ≡ b.start) }
    ensures fits { (n : Name) → IsProper n → depth n ≤ 16383 → key_of n < 2 ^ 64 }
{}

/// Names that are entered leave each place as it was, and a name of a table has one place.
pub fn places_are_kept()
    ensures entered { (old new : List Name) (n m : Name) (k : ℕ) → Enters old n new → StandsAt old m k → StandsAt new m k }
    ensures grown { (old new : List Name) (n m : Name) (k : ℕ) → GrowsUpTo old n new → StandsAt old m k → StandsAt new m k }
    ensures one { (ns : List Name) (n : Name) (j k : ℕ) → IsTable ns → StandsAt ns n j → StandsAt ns n k → j ≡ k }
{}
