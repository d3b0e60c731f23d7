ghost use Rattle.std.specs.Prelude.{◌≡◌, ℕ, List};
ghost use Rattle.ic_session.specs.Modes.{plain};
ghost use Rattle.ic_session.specs.Sessions.{IsSessionText};
ghost use Rattle.ic_session.specs.declared.session.Status.{Status};
ghost use Rattle.ic_session.specs.Wants.{Wants};

/// A session of one worker has one text, and ends in one way: two texts that such sessions of one budget write for one
/// input are equal, byte for byte, if neither of them tells of memory that ran out.
pub fn one_text()
    ensures { (budget : ℕ) (input a b : List ℕ) (i j : Status) → IsSessionText (plain 1 budget) input i a
        → IsSessionText (plain 1 budget) input j b → ¬ (Wants a) → ¬ (Wants b) → (i ≡ j) × (a ≡ b) }
{}
