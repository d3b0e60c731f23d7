ghost use Rattle.std.specs.Prelude.{◌≡◌, ℕ, List};
ghost use Rattle.ic_path.specs.Orders.{Alike};
ghost use Rattle.ic_theory.specs.Starts.{Start, IsProper};
ghost use Rattle.ic_theory.specs.Machine.{events};
ghost use Rattle.ic_theory.specs.Machine as machine;
ghost use Rattle.ic_command.specs.declared.command.Command.TheVariants.{Net, Journal};
ghost use Rattle.ic_answer.specs.CommandReplies.{RepliesToCommand};
ghost use Rattle.ic_desk.specs.Desks.{State};
ghost use Rattle.ic_session.specs.Reductions.{EndsNormally};
ghost use Rattle.ic_session.specs.States.{IsReached};
ghost use Rattle.ic_session.specs.Wants.{Wants};

/// If the same events stood before, a reduction that ends normal has one text, whatever the number of workers and the most that
/// it might fire. Whatever stood before, one net and one journal are told after it, byte for byte, unless an answer tells that
/// memory ran out.
pub fn one_reduction()
    ensures text { (s : Start) (st tt next after : State) (workers others most many : ℕ) (x y : List ℕ) → IsProper s → IsReached s st.bench → IsReached s tt.bench
        → Alike (events st.bench) (events tt.bench) → EndsNormally s workers most st x next → EndsNormally s others many tt y after → x ≡ y }
    ensures net { (s : Start) (st tt next after : State) (workers others most many : ℕ) (x y : List ℕ) → IsProper s → IsReached s st.bench → IsReached s tt.bench
        → EndsNormally s workers most st x next → EndsNormally s others many tt y after → (m n : machine.State) (a b : List ℕ)
        → RepliesToCommand s next.bench Net a m → RepliesToCommand s after.bench Net b n → ¬ (Wants a) → ¬ (Wants b) → a ≡ b }
    ensures journal { (s : Start) (st tt next after : State) (workers others most many : ℕ) (x y : List ℕ) → IsProper s → IsReached s st.bench → IsReached s tt.bench
        → EndsNormally s workers most st x next → EndsNormally s others many tt y after → (m n : machine.State) (a b : List ℕ)
        → RepliesToCommand s next.bench Journal a m → RepliesToCommand s after.bench Journal b n → ¬ (Wants a) → ¬ (Wants b) → a ≡ b }
{}
