ghost use Rattle.std.specs.Prelude.{Option, Result as AResult, IfSome};
ghost use Rattle.ic_set.specs.Pairs.{IsActivePair};
ghost use Rattle.ic_set.specs.declared.pairs.ActivePair.{ActivePair as APair};
ghost use Rattle.ic_set.specs.declared.pairs.Fired.{Fired as AFired};
ghost use Rattle.ic_journal.specs.Views.{BenchView, set_of};
ghost use Rattle.ic_journal.specs.declared.faults.PairFault.{PairFault as APairFault};

use ic_journal::{ActivePair, Bench, Fired, PairFault, Store};

/// Who chooses the active pairs of a run of firings. Both calls come under the lock of the bench.
pub trait Chooser {
    /// What holds of it between two calls.
    ghost holds: { Self → Type 0 };

    /// What choosing an active pair of a bench may change.
    ghost chooses: { Self → BenchView → Option APair → Self → Type 0 };

    /// What hearing an answer may change.
    ghost hears: { Self → AResult AFired APairFault → Self → Type 0 };

    /// Chooses the pair that is fired next; `None` ends the run.
    fn choose(&mut self, bench: &Bench<Store>) -> Option<ActivePair>
        requires { holds self.old }
        ensures kept { holds self.new }
        ensures active { IfSome result (λ pair. IsActivePair (set_of bench.now) pair) }
        ensures chosen { chooses self.old bench.now result self.new };

    /// Hears the answer to what it chose last.
    fn hear(&mut self, answer: &Result<Fired, PairFault>)
        requires { holds self.old }
        ensures kept { holds self.new }
        ensures heard { hears self.old answer.now self.new };
}
