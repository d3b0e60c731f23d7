ghost use Rattle.std.specs.Prelude.{◌≡◌, ℕ, ◌≤◌, ◌+◌, max, All};
ghost use Rattle.ic_name.specs.Events.{Event as AnEvent};
ghost use Rattle.ic_theory.specs.Causes.{canonical_cmp as canonical_order};
ghost use Rattle.ic_cause.specs.Places.{place_cmp};
ghost use Rattle.ic_cause.specs.Ranks.{IsRankAbove};

use ic_name::Event;
use ic_name::limits::MAX_LINES;
use std::cmp::Ordering;

/// The rank of an event whose direct causes have these ranks: one more than the greatest, and 0 without causes. It takes
/// no memory.
pub fn rank_of(ranks: &[u32]) -> u32
    requires { All (λ rank. rank ≤ MAX_LINES) ranks.now }
    ensures { IsRankAbove ranks.now result }
{
    let mut above = 0;
    for rank in ranks {
        above = rank_with(above, *rank);
    }
    above
}

/// The rank of an event with one direct cause more, which has the rank `cause`: `rank` is that over its other causes. It
/// takes no memory.
pub fn rank_with(rank: u32, cause: u32) -> u32
    requires { cause ≤ MAX_LINES }
    ensures { result ≡ max rank (cause + 1) }
{
    rank.max(cause + 1)
}

/// The canonical order of two events of these ranks: by rank, then lead, then other. It takes no memory.
pub fn canonical_cmp(a: &Event, a_rank: u32, b: &Event, b_rank: u32) -> Ordering
    ensures canonical { (rank : AnEvent → ℕ) → rank a.now ≡ a_rank → rank b.now ≡ b_rank → result ≡ canonical_order rank a.now b.now }
    ensures places { result ≡ place_cmp (a_rank, a.now) (b_rank, b.now) }
{
    a_rank
        .cmp(&b_rank)
        .then_with(|| a.lead().cmp(b.lead()))
        .then_with(|| a.other().cmp(b.other()))
}
