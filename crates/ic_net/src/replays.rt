ghost use Rattle.std.specs.Prelude.{[], IfOk, IfErr};
ghost use Rattle.ic_theory.specs.Firings.{AreAfterCauses, then_fired};
ghost use Rattle.ic_theory.specs.Listed.{shown};
ghost use Rattle.ic_theory.specs.Nets.{IsSameNet, net_of};
ghost use Rattle.ic_theory.specs.Sound.{IsSound};
ghost use Rattle.ic_theory.specs.Steps.{AreDefined, steps};
ghost use Rattle.ic_net.specs.Replays.{IsReplayFault};

use crate::fault::StepFault;
use crate::net::Net;
use ic_name::Event;
use ic_start::Start;
use std::alloc::Global;

/// Why a list of events isn't replayed: the place of the first one that is refused, from 0 on, and why.
#[derive(Clone, Copy, Debug, PartialEq, Eq)]
pub struct ReplayFault {
    pub place: usize,
    pub cause: StepFault,
}

/// The net that the events leave, fired over the start in this order, the earliest first: one step for each. It is there
/// exactly for the causal orders of sound sets, as far as depth and memory go, and is then the net of the set.
pub fn replay(alloc: Global, start: &Start, events: &[Event]) -> Result<Net, ReplayFault>
    ensures defined { IfOk result (λ _. AreDefined (net_of start.now []) events.now) }
    ensures stepped { IfOk result (λ net. IsSameNet (shown net) (steps (net_of start.now []) events.now)) }
    ensures sound { IfOk result (λ _. IsSound start.now (then_fired [] events.now)) }
    ensures causal { IfOk result (λ _. AreAfterCauses start.now (then_fired [] events.now) (then_fired [] events.now)) }
    ensures left { IfOk result (λ net. IsSameNet (shown net) (net_of start.now (then_fired [] events.now))) }
    ensures fault { IfErr result (λ fault. IsReplayFault start.now events.now fault.place fault.cause) }
{
    start.lawful();
    let Ok(mut net) = Net::of_start(alloc, start) else {
        return Err(ReplayFault {
            place: 0,
            cause: StepFault::Memory,
        });
    };
    let count = events.len();
    for place in 0..count {
        match net.step(alloc, &events[place]) {
            Ok(()) => {}
            Err(cause) => return Err(ReplayFault { place, cause }),
        }
    }
    Ok(net)
}
