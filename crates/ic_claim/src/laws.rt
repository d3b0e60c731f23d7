// What follows from the rule, in plain words. No function here does anything.
ghost use Rattle.std.specs.Prelude.{◌≡◌, ℕ, ◌+◌, ◌≤◌, List, length, min, Some};
ghost use mathlib.Core.Option.{some};
ghost use lib.ListN.{get_elem?};
ghost use Rattle.ic_claim.specs.declared.view.View.{View as AView};
ghost use Rattle.ic_claim.specs.Counts.{times, total};
ghost use Rattle.ic_claim.specs.Rule.{Agree, word_of_tickets};

/// No claim word is held by two seats.
pub fn one_holder()
    ensures { (budget : ℕ) (words : List ℕ) (views : List AView) (j k w : ℕ) (u v : AView)
        → Agree budget words views → get_elem? views j ≡ some u → get_elem? views k ≡ some v
        → u.held ≡ Some w → v.held ≡ Some w → j ≡ k }
{}

/// No ticket is in two views or twice in one, and there are as many as the lesser of the ticket word and the budget.
pub fn each_ticket_is_drawn_once()
    ensures distinct { (budget : ℕ) (words : List ℕ) (views : List AView) (x : ℕ)
        → Agree budget words views → total (λ v. times x v.tickets) views ≤ 1 }
    ensures counted { (budget : ℕ) (words : List ℕ) (views : List AView)
        → Agree budget words views → total (λ v. length v.tickets) views ≡ min (word_of_tickets words) budget }
{}

/// The ticket word is at most the budget and 64 more, so that it never wraps.
pub fn ticket_word_never_wraps()
    ensures { (budget : ℕ) (words : List ℕ) (views : List AView)
        → Agree budget words views → word_of_tickets words ≤ budget + 64 }
{}
