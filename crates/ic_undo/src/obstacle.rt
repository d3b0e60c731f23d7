ghost use Rattle.std.specs.Prelude.{IfNone, IfOk, IfSome};
ghost use Rattle.ic_name.specs.declared.ports.Port.{Port as APort};
ghost use Rattle.ic_name.specs.declared.ports.Port.TheVariants as port_variants;
ghost use Rattle.ic_theory.specs.Wires.{IsWire};
ghost use Rattle.ic_set.specs.Views.{standing};
ghost use Rattle.ic_journal.specs.Views.{set_of};
ghost use Rattle.ic_undo.specs.Obstacles.{IsObstacle};

use ic_journal::{Bench, LinkStore};
use ic_name::{AgentName, EventName, Port};
use std::alloc::AllocError;

/// What keeps a listed event from being active when no listed event can be fired any more.
#[derive(Drop)]
pub enum Obstacle {
    /// The net has no agent of this name. It is one of the two agents of the event.
    Absent(AgentName),
    /// Both agents are there. The wire at the lead's principal port leads to the first port, the wire at the other agent's to
    /// the second.
    Joined(Port, Port),
    /// Memory ran out during the search.
    Unknown,
}

/// What keeps the event of this name from being active.
pub(crate) fn obstacle_of<L: LinkStore>(bench: &Bench<L>, name: &EventName) -> Obstacle
    ensures { IsObstacle bench.now.start (standing (set_of bench.now)) name.now result }
{
    match find_obstacle(bench, name) {
        Ok(obstacle) => obstacle,
        Err(_) => Obstacle::Unknown,
    }
}

/// The same; an error if memory ran out.
fn find_obstacle<L: LinkStore>(bench: &Bench<L>, name: &EventName) -> Result<Obstacle, AllocError>
    ensures { IfOk result (λ found. IsObstacle bench.now.start (standing (set_of bench.now)) name.now found) }
{
    let Some(from_lead) = far_end(bench, name.lead())? else {
        return Ok(Obstacle::Absent(name.lead().copy()?));
    };
    let Some(from_other) = far_end(bench, name.other())? else {
        return Ok(Obstacle::Absent(name.other().copy()?));
    };
    Ok(Obstacle::Joined(from_lead, from_other))
}

/// The port to which the wire at an agent's principal port leads; `None` if the net has no such agent.
fn far_end<L: LinkStore>(bench: &Bench<L>, agent: &AgentName) -> Result<Option<Port>, AllocError>
    ensures found { IfOk result (λ far. IfSome far (λ q. IsWire bench.now.start (standing (set_of bench.now)) (port_variants.Of agent.now 0) q)) }
    ensures absent { IfOk result (λ far. IfNone far ((q : APort) → ¬ (IsWire bench.now.start (standing (set_of bench.now)) (port_variants.Of agent.now 0) q))) }
{
    let principal = Port::Of(agent.copy()?, 0);
    match bench.wire(&principal)? {
        Some(wire) => Ok(Some(wire.far)),
        None => Ok(None),
    }
}
