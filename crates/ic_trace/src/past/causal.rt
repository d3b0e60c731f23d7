ghost use Rattle.std.specs.Prelude.{◌≡◌, ◌≤◌, ◌↔◌, [], IfOk, IsTrue, length};
ghost use Rattle.ic_name.specs.declared.limits.TheConstants.{MAX_LINES};
ghost use Rattle.ic_theory.specs.CausalOrders.{IsCausalOrder};

use crate::past::Past;
use ic_name::Event;
use ic_start::Start;
use std::alloc::{AllocError, Global};

/// Whether the events are a sound set over the start, each listed once and after its direct causes.
pub fn is_causal_order(alloc: Global, start: &Start, events: &[Event]) -> Result<bool, AllocError>
    requires { length events.now ≤ MAX_LINES }
    ensures { IfOk result (λ yes. IsTrue yes ↔ IsCausalOrder start.now events.now) }
{
    let mut past = Past::over(alloc, start)?;
    fire_in_order(&mut past, events)
}

/// Fires the events in turn, when no event stands yet; false at the first that isn't active.
fn fire_in_order(past: &mut Past, events: &[Event]) -> Result<bool, AllocError>
    requires nothing { past.old.events ≡ [] }
    requires few { length events.now ≤ MAX_LINES }
    ensures { IfOk result (λ yes. IsTrue yes ↔ IsCausalOrder past.old.start events.now) }
{
    past.lawful();
    for event in events {
        if !past.fire(event)? {
            return Ok(false);
        }
    }
    Ok(true)
}
