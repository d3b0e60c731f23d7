ghost use Rattle.std.specs.Prelude.{◌≡◌, ◌≢◌, ◌≤◌, List, IfSome, IfNone};
ghost use Rattle.ic_name.specs.declared.ids.AgentId.{AgentId as AnAgentId};
ghost use Rattle.ic_name.specs.declared.ids.Link.{Link as ALink};
ghost use Rattle.ic_name.specs.declared.ids.Spot.TheVariants.{Agent};
ghost use Rattle.ic_path.specs.FarEnds.{far as far_end};
ghost use Rattle.ic_path.specs.Links.{IsSlim, degree};
ghost use Rattle.ic_link.specs.Links.{shape, IsFar, ArePrincipals};

use crate::store::Far;
use ic_name::{AgentId, Spot};

/// Two agents whose principal ports are joined.
#[derive(Clone, Copy, Debug, PartialEq, Eq)]
pub struct Principals {
    pub one: AgentId,
    pub other: AgentId,
}

/// The spot at which the path from a spot ends, from what the store told: the spot itself if no link ends at it.
pub(crate) fn end_of(spot: Spot, far: Far) -> Spot
    ensures { (ls : List ALink) → IsSlim shape ls → degree shape ls spot ≤ 1 → IsFar ls spot far → result ≡ far_end shape ls spot }
{
    match far {
        Far::End(end) => end,
        Far::Bare | Far::Joint => spot,
    }
}

/// The agents of these two spots, if both are principal ports.
pub fn principals_of(a: Spot, b: Spot) -> Option<Principals>
    ensures { ArePrincipals a b result }
{
    let one = principal(a)?;
    let other = principal(b)?;
    Some(Principals { one, other })
}

/// The agent of a spot, if the spot is its principal port.
fn principal(spot: Spot) -> Option<AgentId>
    ensures found { IfSome result (λ agent. spot ≡ Agent agent 0) }
    ensures absent { IfNone result ((agent : AnAgentId) → spot ≢ Agent agent 0) }
{
    match spot {
        Spot::Agent(agent, 0) => Some(agent),
        Spot::Agent(_, _) | Spot::Name(_) => None,
    }
}
