ghost use Rattle.std.specs.Prelude.{List};
ghost use Rattle.ic_name.specs.Events.{Event, Pair};
ghost use Rattle.ic_theory.specs.Sound.{IsSound};
ghost use Rattle.ic_set.specs.Views.{standing};
ghost use Rattle.ic_journal.specs.Benches.{IsBench};
ghost use Rattle.ic_journal.specs.Views.{BenchView, set_of};
ghost use Rattle.ic_undo.specs.Absorbing.{IsLeastNever};
ghost use Rattle.ic_undo.specs.Ready.{AreNamesOf};

/// If the listed names are those of a sound set over the bench's start, in any order, `absorb` refuses none of them as
/// `NeverActive`.
pub fn absorbs_sound_sets()
    ensures { (v : BenchView) (es : List Event) (names : List Pair) (p : Pair) → IsBench v → IsSound v.start es → AreNamesOf es names → IsLeastNever v.start (standing (set_of v)) names p → ⊥ }
{}
