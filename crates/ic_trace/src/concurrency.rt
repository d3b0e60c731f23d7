ghost use Rattle.std.specs.Prelude.{◌<◌, ◌↔◌, length, IsTrue};
ghost use Rattle.ic_theory.specs.Causes.{IsCause};
ghost use Rattle.ic_theory.specs.Letters.{AreConcurrent};
ghost use Rattle.ic_theory.specs.Starts.{Start, IsProper};
ghost use Rattle.ic_trace.specs.Known.{AreKnown, event_at, events_in};

use crate::known::Known;

/// Whether the events of these numbers are concurrent: neither is a direct cause of the other.
pub(crate) fn are_concurrent(known: &[Known], a: usize, b: usize) -> bool
    requires left { a < length known.now }
    requires right { b < length known.now }
    ensures { (s : Start) → IsProper s → AreKnown s known.now → IsTrue result ↔ AreConcurrent s (event_at known.now a) (event_at known.now b) }
{
    if a == b || is_cause(known, a, b) {
        return false;
    }
    !is_cause(known, b, a)
}

/// Whether the second event is a direct cause of the first.
fn is_cause(known: &[Known], event: usize, cause: usize) -> bool
    requires left { event < length known.now }
    requires right { cause < length known.now }
    ensures { (s : Start) → AreKnown s known.now → IsTrue result ↔ IsCause s (events_in known.now) (event_at known.now event) (event_at known.now cause) }
{
    known[event].causes.contains(&cause)
}
