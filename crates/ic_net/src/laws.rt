ghost use Rattle.std.specs.Prelude.{◌≡◌, ◌↔◌, Some, map};
ghost use Rattle.std.specs.List.Sorted.{IsStrictlySortedBy};
ghost use Rattle.std.specs.declared.cmp.Ordering.TheVariants.{Less};
ghost use Rattle.ic_name.specs.Names.{Name, name_cmp};
ghost use Rattle.ic_name.specs.Events.{Event};
ghost use Rattle.ic_name.specs.declared.ports.Port.TheVariants as ports;
ghost use Rattle.ic_path.specs.Orders.{IsIn};
ghost use Rattle.ic_theory.specs.Nets.{IsSameNet};
ghost use Rattle.ic_theory.specs.Steps.{Meets};
ghost use Rattle.ic_theory.specs.Listed.{ListedNet, IsListing, shown, active_pairs};

/// A net is listed in one way: two listings are equal exactly if they show the same net.
pub fn one_listing()
    ensures { (l m : ListedNet) → IsListing l → IsListing m → IsSameNet (shown l) (shown m) ↔ (l ≡ m) }
{}

/// The active pairs of a listing are the pairs of agents, the lesser one first, whose principal ports are partners, each
/// once, in order of leads. A plain step is defined for exactly these, with the kinds of their agents.
pub fn active_pairs_are_active()
    ensures pairs { (l : ListedNet) (a b : Name) → IsListing l → IsIn (a, b) (active_pairs l) ↔ (((shown l).partner (ports.Of a 0) ≡ Some (ports.Of b 0)) × (name_cmp a b ≡ Less)) }
    ensures in_order { (l : ListedNet) → IsListing l → IsStrictlySortedBy name_cmp (map (λ (p : Name × Name). p.0) (active_pairs l)) }
    ensures steps { (l : ListedNet) (e : Event) → IsListing l → Meets (shown l) e ↔ (IsIn (e.lead, e.other) (active_pairs l) × ((shown l).kind e.lead ≡ Some e.lead_kind) × ((shown l).kind e.other ≡ Some e.other_kind)) }
{}
