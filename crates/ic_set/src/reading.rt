ghost use Rattle.std.specs.Prelude.{◌≡◌, ◌≢◌, ◌≤◌, ◌<◌, ◌↔◌, [], length, map, option_map, All, Some, IfOk, IfSome, IfNone, IsTrue, OnOk};
ghost use Rattle.ic_name.specs.Kinds.{arity};
ghost use Rattle.ic_name.specs.Names.{Name as AName};
ghost use Rattle.ic_name.specs.declared.kinds.Kind.{Kind as AKind};
ghost use Rattle.ic_name.specs.declared.ports.Port.{Port as APort};
ghost use Rattle.ic_name.specs.declared.ports.Port.TheVariants as port_variants;
ghost use Rattle.ic_names.specs.Tables.{name_at};
ghost use Rattle.ic_net.specs.Makings.{IsLastName};
ghost use Rattle.ic_net.specs.Placed.{port_at, placed_list, IsPortInside};
ghost use Rattle.ic_path.specs.Orders.{IsIn};
ghost use Rattle.ic_roster.specs.Placed.{member_in};
ghost use Rattle.ic_theory.specs.Sets.{consumed_times};
ghost use Rattle.ic_theory.specs.Wires.{IsWire};
ghost use Rattle.ic_set.specs.Reading.{net_in, IsPortAt, IsLeadPort, IsLiving, ArePartners, IsPrincipalPartner, AreNetAgents, AreNetFrees, IsPut};
ghost use Rattle.ic_set.specs.Views.{standing};
ghost use Rattle.ic_set.specs.Wires.{IsLooseSpot};

use crate::bare::BareSet;
use ic_link::{Far, LinkStore};
use ic_name::{AgentId, Kind, Port, Spot};
use ic_names::NameId;
use ic_net::{NetMaker, PlacedPartners, PlacedPort};
use ic_roster::PlacedAgent;
use std::alloc::AllocError;

impl<L: LinkStore> BareSet<L> {
    /// The agents of the net come, with the partners of their ports, by the places of their names. At an error memory ran out.
    pub(crate) fn put_agents(&self, maker: &mut NetMaker<'_>) -> Result<(), AllocError>
        requires names { maker.old.names ≡ self.now.names }
        requires none { maker.old.agents ≡ [] }
        ensures agents { OnOk result (AreNetAgents self.now.set maker.new.agents) }
        ensures names { OnOk result (maker.new.names ≡ maker.old.names) }
        ensures frees { OnOk result (maker.new.frees ≡ maker.old.frees) }
        ensures profile { OnOk result (maker.new.profile ≡ maker.old.profile) }
    {
        self.lawful();
        for agent in &self.roster.in_order(self.alloc)? {
            self.put_agent(*agent, maker)?;
        }
        Ok(())
    }

    /// The free names of the net come, each with its partner. At an error memory ran out.
    pub(crate) fn put_frees(&self, maker: &mut NetMaker<'_>) -> Result<(), AllocError>
        requires names { maker.old.names ≡ self.now.names }
        requires none { maker.old.frees ≡ [] }
        ensures agents { OnOk result (maker.new.agents ≡ maker.old.agents) }
        ensures frees { OnOk result (AreNetFrees self.now.set maker.new.frees) }
        ensures few { OnOk result (length maker.new.frees ≤ length self.now.set.start.names) }
        ensures profile { OnOk result (maker.new.profile ≡ maker.old.profile) }
    {
        self.lawful();
        self.start.lawful();
        for number in 0..self.start.names().len() {
            let number = number as u32;
            if let Some(partner) = self.partner_of_name(number) {
                maker.push_free(number, partner)?;
            }
        }
        Ok(())
    }

    /// An agent comes, with the partners of its ports, if it isn't consumed. At an error memory ran out.
    fn put_agent(&self, agent: PlacedAgent, maker: &mut NetMaker<'_>) -> Result<(), AllocError>
        requires names { maker.old.names ≡ self.now.names }
        requires there { IsIn (member_in self.now.names agent) self.now.set.agents }
        requires inside { agent.name.place < length self.now.names }
        requires last { (n : AName) (k : AKind) → IsLiving self.now.set agent.id n k → IsLastName n maker.old.agents }
        ensures agents { OnOk result (IsPut self.now.set agent.id maker.old.agents maker.new.agents) }
        ensures names { OnOk result (maker.new.names ≡ maker.old.names) }
        ensures frees { OnOk result (maker.new.frees ≡ maker.old.frees) }
        ensures profile { OnOk result (maker.new.profile ≡ maker.old.profile) }
    {
        self.lawful();
        let Some(first) = self.principal_partner(agent.id, agent.name) else {
            return Ok(());
        };
        let partners = self.partners(agent, first);
        maker.push_agent(agent.name, agent.kind, partners)
    }

    /// The partners of the ports of an agent that isn't consumed. That of its principal port is known. It takes no memory.
    fn partners(&self, agent: PlacedAgent, first: PlacedPort) -> PlacedPartners
        requires living { IsLiving self.now.set agent.id (name_at self.now.names agent.name.place) agent.kind }
        requires first { IsPrincipalPartner self.now agent.name first }
        requires inside { IsPortInside self.now.names first }
        ensures partners { ArePartners self.now.set (name_at self.now.names agent.name.place) (map (port_at self.now.names) (placed_list result)) }
        ensures inside { All (IsPortInside self.now.names) (placed_list result) }
    {
        self.lawful();
        match agent.kind {
            Kind::Eps => PlacedPartners::One([first]),
            Kind::Gamma | Kind::Delta => {
                let second = self.partner_at(agent.id, 1);
                let third = self.partner_at(agent.id, 2);
                PlacedPartners::Three([first, second, third])
            }
        }
    }

    /// The partner of the principal port of the agent whose id and whose name's place these are; `None` exactly if a standing
    /// event consumed the agent. It takes no memory.
    pub(crate) fn principal_partner(&self, agent: AgentId, name: NameId) -> Option<PlacedPort>
        requires inside { name.place < length self.now.names }
        requires there { (kind : AKind) × IsIn (record { id = agent; name = name_at self.now.names name.place; kind = kind }) self.now.set.agents }
        ensures consumed { IfNone result (consumed_times (name_at self.now.names name.place) (standing self.now.set) ≢ 0) }
        ensures living { IfSome result (λ _. consumed_times (name_at self.now.names name.place) (standing self.now.set) ≡ 0) }
        ensures partner { IfSome result (IsPrincipalPartner self.now name) }
        ensures inside { IfSome result (IsPortInside self.now.names) }
    {
        if self.roster.is_lead(name) {
            return None;
        }
        let Far::End(end) = self.store.far(Spot::Agent(agent, 0)) else {
            unreachable!()
        };
        let partner = self.port_of(end);
        if self.is_lead_port(partner) {
            return None;
        }
        Some(partner)
    }

    /// Whether this is the principal port of an agent that leads a standing event. It takes no memory.
    fn is_lead_port(&self, port: PlacedPort) -> bool
        requires { IsPortInside self.now.names port }
        ensures { IsTrue result ↔ IsLeadPort self.now.set (port_at self.now.names port) }
    {
        match port {
            PlacedPort::Of(name, number) => number == 0 && self.roster.is_lead(name),
            PlacedPort::Name(_) => false,
        }
    }

    /// The partner of a port of an agent that isn't consumed. It takes no memory.
    fn partner_at(&self, agent: AgentId, port: u8) -> PlacedPort
        requires { (n : AName) × (k : AKind) × IsLiving self.now.set agent n k × (port ≤ arity k) }
        ensures partner { (n : AName) (k : AKind) → IsLiving self.now.set agent n k → port ≤ arity k → (net_in self.now.set).partner (port_variants.Of n port) ≡ Some (port_at self.now.names result) }
        ensures inside { IsPortInside self.now.names result }
    {
        self.lawful();
        self.far_port(Spot::Agent(agent, port))
    }

    /// The port at the other end of the wire at the spot of a port of the net. It takes no memory.
    pub(crate) fn far_port(&self, spot: Spot) -> PlacedPort
        requires { (p : APort) × IsLooseSpot self.now.set spot p }
        ensures wire { (p : APort) → IsLooseSpot self.now.set spot p → IsWire self.now.set.start (standing self.now.set) p (port_at self.now.names result) }
        ensures inside { IsPortInside self.now.names result }
    {
        let Far::End(end) = self.store.far(spot) else {
            unreachable!()
        };
        self.port_of(end)
    }

    /// The partner of the name of this number; `None` if the name isn't free. It takes no memory.
    fn partner_of_name(&self, number: u32) -> Option<PlacedPort>
        ensures partner { option_map (port_at self.now.names) result ≡ (net_in self.now.set).partner (port_variants.Name number) }
        ensures inside { IfSome result (IsPortInside self.now.names) }
    {
        let Far::End(spot) = self.store.far(Spot::Name(number)) else {
            return None;
        };
        Some(self.port_of(spot))
    }

    /// The port that the spot stands for. It takes no memory.
    fn port_of(&self, spot: Spot) -> PlacedPort
        requires { (p : APort) × IsPortAt self.now.set spot p }
        ensures port { IsPortAt self.now.set spot (port_at self.now.names result) }
        ensures inside { IsPortInside self.now.names result }
    {
        match spot {
            Spot::Name(number) => PlacedPort::Name(number),
            Spot::Agent(agent, port) => {
                let Some(entry) = self.roster.agent(agent) else {
                    unreachable!()
                };
                PlacedPort::Of(entry.name, port)
            }
        }
    }

    /// A port by its agent's name, or by its number if it is a free name. At an error memory ran out.
    pub(crate) fn named_port(&self, port: PlacedPort) -> Result<Port, AllocError>
        requires { IsPortInside self.now.names port }
        ensures { IfOk result (λ p. p ≡ port_at self.now.names port) }
    {
        match port {
            PlacedPort::Name(number) => Ok(Port::Name(number)),
            PlacedPort::Of(name, number) => match self.roster.names().name(name)? {
                Some(name) => Ok(Port::Of(name, number)),
                None => unreachable!(),
            },
        }
    }
}
