ghost use Rattle.std.specs.Prelude.{◌≢◌, ◌↔◌, List};
ghost use Rattle.ic_name.specs.Events.{Event};
ghost use Rattle.ic_path.specs.Orders.{IsIn, Alike};
ghost use Rattle.ic_theory.specs.Starts.{Start, IsProper};
ghost use Rattle.ic_theory.specs.Causes.{IsCause};
ghost use Rattle.ic_theory.specs.Letters.{AreConcurrent};
ghost use Rattle.ic_theory.specs.Sound.{IsSound};
ghost use Rattle.ic_trace.specs.declared.lists.Letter.{Letter};
ghost use Rattle.ic_trace.specs.declared.moving.Move.{Move};
ghost use Rattle.ic_trace.specs.Letters.{Leaves, IsLegal};
ghost use Rattle.ic_trace.specs.Moves.{Lead, AreEquivalent};

/// Two legal lists over one start are causally equivalent exactly if their standing sets are equal (Danos and Krivine
/// 2004).
pub fn consistency()
    ensures equal_sets { (s : Start) (xs ys : List Letter) (es fs : List Event) → IsProper s → Leaves s xs es → Leaves s ys fs → AreEquivalent s xs ys ↔ Alike es fs }
{}

/// Lawful moves lead from legal lists to legal lists, and keep what stands.
pub fn moves_keep_what_stands()
    ensures legal { (s : Start) (xs ys : List Letter) (ms : List Move) → IsProper s → Lead s xs ms ys → IsLegal s ys }
    ensures standing { (s : Start) (xs ys : List Letter) (ms : List Move) (es fs : List Event) → IsProper s → Lead s xs ms ys → Leaves s xs es → Leaves s ys fs → Alike es fs }
{}

/// The direct causes of an event at its firing are its direct causes in each sound set that it stands in, so they tell
/// which events are concurrent.
pub fn causes_are_those_of_the_firing()
    ensures same { (s : Start) (es all : List Event) (e c : Event) → IsProper s → IsSound s es → IsSound s all → IsIn e es → IsIn e all → IsCause s es e c → IsCause s all e c }
    ensures concurrent { (s : Start) (es fs : List Event) (e f : Event) → IsProper s → IsSound s es → IsSound s fs → IsIn e es → IsIn f fs → e ≢ f → AreConcurrent s e f ↔ (¬ (IsCause s es e f) × ¬ (IsCause s fs f e)) }
{}
