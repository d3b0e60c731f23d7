ghost use Rattle.std.specs.Prelude.{◌≡◌, ℕ, List};
ghost use Rattle.ic_name.specs.Names.{Name};
ghost use Rattle.ic_names.specs.Tables.{IsTable, Enters, GrowsUpTo};
ghost use Rattle.ic_names.specs.Queues.{QueueView, leads_of, IsQueue, IsLeast};

/// Names that are entered in the table leave a queue in order, and of its names one at most is the least.
pub fn queues_are_kept()
    ensures entered { (old new : List Name) (n : Name) (q : QueueView) → Enters old n new → IsQueue old q → IsQueue new q }
    ensures grown { (old new : List Name) (n : Name) (q : QueueView) → GrowsUpTo old n new → IsQueue old q → IsQueue new q }
    ensures one_least { (ns : List Name) (q : QueueView) (m n : ℕ) → IsTable ns → IsQueue ns q → IsLeast ns (leads_of q) m → IsLeast ns (leads_of q) n → m ≡ n }
{}
