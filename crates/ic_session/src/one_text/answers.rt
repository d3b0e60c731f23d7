ghost use Rattle.std.specs.Prelude.{◌≡◌, ℕ, List};
ghost use Rattle.ic_name.specs.declared.lines.Call.{Call};
ghost use Rattle.ic_name.specs.declared.lines.Reply.{Reply};
ghost use Rattle.ic_theory.specs.Starts.{Start, IsProper};
ghost use Rattle.ic_theory.specs.Machine.{State, MachineStep};
ghost use Rattle.ic_command.specs.declared.command.Command.{Command};
ghost use Rattle.ic_answer.specs.CommandReplies.{RepliesToCommand};
ghost use Rattle.ic_session.specs.States.{IsReached};
ghost use Rattle.ic_theory.specs.Machine.{AreSame};
ghost use Rattle.ic_session.specs.Wants.{Wants};

/// The answer to a command leaves a state that a history leads to, if it was given in one.
pub fn reached_on()
    ensures { (s : Start) (st next : State) (c : Command) (x : List ℕ) → IsReached s st → RepliesToCommand s st c x next → IsReached s next }
{}

/// A call of the machine has one reply in states that are the same up to order, and leaves one state up to order.
pub fn one_step()
    ensures { (s : Start) (st tt next after : State) (c : Call) (q r : Reply) → IsProper s → IsReached s st → IsReached s tt → AreSame st tt → MachineStep s st c q next → MachineStep s tt c r after → (q ≡ r) × AreSame next after }
{}

/// A command has one answer in states that are the same up to order, and leaves one state up to order, if neither
/// answer tells of memory that ran out.
pub fn one_answer()
    ensures { (s : Start) (st tt next after : State) (c : Command) (x y : List ℕ) → IsProper s → IsReached s st → IsReached s tt → AreSame st tt → RepliesToCommand s st c x next → RepliesToCommand s tt c y after → ¬ (Wants x) → ¬ (Wants y) → (x ≡ y) × AreSame next after }
{}
