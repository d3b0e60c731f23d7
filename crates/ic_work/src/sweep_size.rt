ghost use Rattle.std.specs.Prelude.{◌≡◌, ◌<◌, ◌≤◌, ◌⊎◌, MatchOption};
ghost use Rattle.ic_claim.specs.declared.limits.TheConstants.{MAX_BUDGET, MAX_WORKERS};

use ic_claim::{MAX_BUDGET, MAX_WORKERS};

/// How large a sweep is: how many workers it has, 1 to 64, and how many events it fires at most, up to 1,048,576.
#[derive(Clone, Copy, Debug, PartialEq, Eq)]
pub struct SweepSize {
    pub(crate) workers: u32,
    pub(crate) budget: u32,
    ghost some: { (0 < workers) × (workers ≤ MAX_WORKERS) },
    ghost few: { budget ≤ MAX_BUDGET },
}

impl SweepSize {
    /// That of so many workers and events; `None` if one of the two isn't within its limits.
    pub fn new(workers: u32, budget: u32) -> Option<SweepSize>
        ensures { MatchOption result ((workers ≡ 0) ⊎ ((MAX_WORKERS < workers) ⊎ (MAX_BUDGET < budget))) (λ size. (size.workers ≡ workers) × (size.budget ≡ budget)) }
    {
        if workers == 0 || MAX_WORKERS < workers || MAX_BUDGET < budget {
            return None;
        }
        Some(SweepSize { workers, budget })
    }
}
