ghost use Rattle.std.specs.Prelude.{IfSome, IfNone, IfOk};
ghost use Rattle.ic_name.specs.declared.ports.Port.{Port as APort};
ghost use Rattle.ic_name.specs.declared.ports.Port.TheVariants as port_variants;
ghost use Rattle.ic_theory.specs.Wires.{IsLoose, IsWire};
ghost use Rattle.ic_set.specs.Orders.{AreInOrder};
ghost use Rattle.ic_set.specs.Views.{standing};
ghost use Rattle.ic_set.specs.Wires.{IsLooseSpot, IsWireMaker, IsWireAt};

use crate::bare::BareSet;
use ic_cause::path_makers;
use ic_link::LinkStore;
use ic_name::{AgentName, EventId, Port, Spot};
use std::alloc::AllocError;

/// A wire, seen from one of its ends: the port at the other end, and the standing events that made it, in canonical order.
#[derive(Drop)]
pub struct Wire {
    pub far: Port,
    pub makers: Vec<EventId>,
}

impl<L: LinkStore> BareSet<L> {
    /// The wire of the net at this port. `None` if no agent of the net has this port, or the name isn't free. At an error
    /// memory ran out.
    pub fn wire(&self, port: &Port) -> Result<Option<Wire>, AllocError>
        ensures found { IfOk result (λ wire. IfSome wire (λ w. IsWireAt self.now.set port.now w.far w.makers.items)) }
        ensures absent { IfOk result (λ wire. IfNone wire ((q : APort) → IsWire self.now.set.start (standing self.now.set) port.now q → ⊥)) }
    {
        match self.loose_spot(port) {
            Some(spot) => Ok(Some(self.wire_at(spot)?)),
            None => Ok(None),
        }
    }

    /// The spot of this port of the net. `None` if no agent of the net has the port, or the name isn't free. It takes no memory.
    fn loose_spot(&self, port: &Port) -> Option<Spot>
        ensures found { IfSome result (λ spot. IsLooseSpot self.now.set spot port.now) }
        ensures absent { IfNone result (IsLoose self.now.set.start (standing self.now.set) port.now → ⊥) }
    {
        match port {
            Port::Of(name, number) => self.agent_spot(name, *number),
            Port::Name(number) => self.name_spot(*number),
        }
    }

    /// The spot of this port of the agent of this name. `None` if the net has no such agent, or the agent has no such port. It
    /// takes no memory.
    fn agent_spot(&self, name: &AgentName, number: u8) -> Option<Spot>
        ensures found { IfSome result (λ spot. IsLooseSpot self.now.set spot (port_variants.Of name.now number)) }
        ensures absent { IfNone result (IsLoose self.now.set.start (standing self.now.set) (port_variants.Of name.now number) → ⊥) }
    {
        let agent = self.roster.find(name)?;
        let entry = self.roster.agent(agent)?;
        if number > entry.kind.arity() {
            return None;
        }
        // There is none exactly if a standing event consumed the agent.
        self.principal_partner(agent, entry.name)?;
        Some(Spot::Agent(agent, number))
    }

    /// The spot of the name of this number. `None` if the name isn't free. It takes no memory.
    fn name_spot(&self, number: u32) -> Option<Spot>
        ensures found { IfSome result (λ spot. IsLooseSpot self.now.set spot (port_variants.Name number)) }
        ensures absent { IfNone result (IsLoose self.now.set.start (standing self.now.set) (port_variants.Name number) → ⊥) }
    {
        let spot = Spot::Name(number);
        if self.store.degree(spot) != 1 {
            return None;
        }
        Some(spot)
    }

    /// The wire at the spot of a port of the net. At an error memory ran out.
    fn wire_at(&self, spot: Spot) -> Result<Wire, AllocError>
        requires { (p : APort) × IsLooseSpot self.now.set spot p }
        ensures { IfOk result (λ w. (p : APort) → IsLooseSpot self.now.set spot p → IsWireAt self.now.set p w.far w.makers.items) }
    {
        Ok(Wire {
            far: self.named_port(self.far_port(spot))?,
            makers: self.wire_makers(spot)?,
        })
    }

    /// The events that made the wire at the spot of a port of the net, in canonical order. At an error memory ran out.
    fn wire_makers(&self, spot: Spot) -> Result<Vec<EventId>, AllocError>
        requires { (p : APort) × IsLooseSpot self.now.set spot p }
        ensures { IfOk result (λ makers. (p : APort) → IsLooseSpot self.now.set spot p → AreInOrder self.now.set (λ x. IsWireMaker self.now.set.start (standing self.now.set) p x.event) makers.items) }
    {
        let makers = path_makers(&self.store, spot)?;
        self.ordered(&makers)
    }
}
