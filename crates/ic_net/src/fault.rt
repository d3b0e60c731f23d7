ghost use Rattle.std.specs.Prelude.{◌≡◌};
ghost use Rattle.ic_net.specs.StepFaults.{step_number};
ghost use Rattle.ic_net.specs.declared.fault.StepFault.TheVariants as faults;

use ic_name::limits::MAX_DEPTH;
use ic_name::numbers;
use std::alloc::AllocError;
use thiserror::Error;

/// Why a net makes no step.
#[derive(Clone, Copy, Debug, PartialEq, Eq, Error)]
pub enum StepFault {
    /// The event's agents aren't in the net, have other kinds, or their principal ports aren't partners.
    #[error("the event's two agents don't meet in the net")]
    NotActive,
    /// The lead's name has as many digits as a name may have, and the rule makes children.
    #[error("the lead's name has {max} digits, so its children have no names", max = MAX_DEPTH)]
    Deep,
    /// Memory ran out, or the net would have more agents or rings than can be counted.
    #[error("memory ran out during the step, or the net would have too many agents or rings")]
    Memory,
}

impl StepFault {
    /// The number of the fault: 21, 22 or 25.
    pub fn number(self) -> u8
        ensures { result ≡ step_number self }
    {
        match self {
            StepFault::NotActive => numbers::NOT_ACTIVE,
            StepFault::Deep => numbers::DEEP,
            StepFault::Memory => numbers::MEMORY,
        }
    }
}

impl From<AllocError> for StepFault {
    ghost from_gives = { λ _ e. e ≡ faults.Memory };

    fn from(_error: AllocError) -> StepFault {
        StepFault::Memory
    }
}
