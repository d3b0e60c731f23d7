ghost use Rattle.std.specs.Prelude.{◌≡◌, ◌↔◌, List};
ghost use Rattle.ic_name.specs.Names.{Name};
ghost use Rattle.ic_name.specs.Events.{Event};
ghost use Rattle.ic_path.specs.Orders.{Alike, IsIn};
ghost use Rattle.ic_theory.specs.Starts.{Start, IsProper};
ghost use Rattle.ic_theory.specs.Causes.{IsCause};
ghost use Rattle.ic_theory.specs.Sound.{IsSound};
ghost use Rattle.ic_theory.specs.Future.{Unites};
ghost use Rattle.ic_theory.specs.Sets.{Consumes};
ghost use Rattle.ic_cause.specs.Journals.{Ranked, IsJournal};

/// The sound sets over one start agree. Of two there is a sound set that has the events of both and no others; an event
/// of both has the same direct causes in each; and no agent meets two partners: events of theirs that share an agent are
/// one.
pub fn one_future()
    ensures union { (s : Start) (es fs : List Event) → IsProper s → IsSound s es → IsSound s fs → (all : List Event) × IsSound s all × Unites all es fs }
    ensures causes { (s : Start) (es fs : List Event) (e c : Event) → IsProper s → IsSound s es → IsSound s fs → IsIn e es → IsIn e fs → IsCause s es e c ↔ IsCause s fs e c }
    ensures partner { (s : Start) (es fs : List Event) (e f : Event) (n : Name) → IsProper s → IsSound s es → IsSound s fs → IsIn e es → IsIn f fs → Consumes e n → Consumes f n → e ≡ f }
{}

/// A sound set has one journal, in whatever order it is listed: what stands determines the events of the journal, their
/// ranks and their order, and so its text.
pub fn one_journal()
    ensures { (s : Start) (es fs : List Event) (xs ys : List Ranked) → IsProper s → IsSound s es → Alike es fs → IsJournal s es xs → IsJournal s fs ys → xs ≡ ys }
{}
