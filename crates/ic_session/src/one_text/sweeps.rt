ghost use Rattle.std.specs.Prelude.{◌≡◌, ℕ, List};
ghost use Rattle.ic_path.specs.Orders.{Alike};
ghost use Rattle.ic_set.specs.Views.{standing};
ghost use Rattle.ic_journal.specs.Views.{BenchView, set_of};
ghost use Rattle.ic_session.specs.NormalEnds.{EndsNormal, IsNetOf, IsJournalOf};

/// Two sweeps from one start that both end `Normal` leave one text of the net and one journal, byte for byte, whatever
/// stood before, and whatever workers and budgets they had. If the same stood before, they fired as many events.
pub fn one_normal_end()
    ensures net { (old new other after : BenchView) (fired count : ℕ) (x y : List ℕ) → old.start ≡ other.start → EndsNormal old fired new → EndsNormal other count after → IsNetOf new x → IsNetOf after y → x ≡ y }
    ensures journal { (old new other after : BenchView) (fired count : ℕ) (x y : List ℕ) → old.start ≡ other.start → EndsNormal old fired new → EndsNormal other count after → IsJournalOf new x → IsJournalOf after y → x ≡ y }
    ensures fired { (old new other after : BenchView) (fired count : ℕ) → old.start ≡ other.start → Alike (standing (set_of old)) (standing (set_of other)) → EndsNormal old fired new → EndsNormal other count after → fired ≡ count }
{}
