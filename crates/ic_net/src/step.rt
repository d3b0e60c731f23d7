ghost use Rattle.std.specs.Prelude.{◌≡◌, ◌↔◌, IsTrue, Some, IfOk, IfErr, slice_get};
ghost use Rattle.ic_name.specs.declared.ports.Port.TheVariants as ports;
ghost use Rattle.ic_theory.specs.Listed.{shown};
ghost use Rattle.ic_theory.specs.Machine.{IsDeep};
ghost use Rattle.ic_theory.specs.Nets.{IsSameNet};
ghost use Rattle.ic_theory.specs.Rules.{born_kinds};
ghost use Rattle.ic_theory.specs.Steps.{Meets, plain_step};
ghost use Rattle.ic_net.specs.StepFaults.{IsRefused};

use crate::children::put_children;
use crate::entries::put_partners;
use crate::fault::StepFault;
use crate::net::Net;
use crate::rewiring::Rewiring;
use ic_name::limits::MAX_DEPTH;
use ic_name::{AgentName, Event, Kind, Port};
use ic_start::outcome;
use std::alloc::Global;

/// A net has fewer agents.
const TOO_MANY_AGENTS: usize = 1 << 32;

/// Whether the first partner is the principal port of this agent.
fn is_principal(partners: &[Port], agent: &AgentName) -> bool
    ensures { IsTrue result ↔ (slice_get partners.now 0 ≡ Some (ports.Of agent.now 0)) }
{
    match partners.first() {
        Some(Port::Of(name, 0)) => name.is(agent),
        _ => false,
    }
}

/// Whether an agent of this kind was found.
fn is_kind(found: Option<Kind>, kind: Kind) -> bool
    ensures { IsTrue result ↔ (found ≡ Some kind) }
{
    match found {
        Some(other) => other == kind,
        None => false,
    }
}

/// Whether the lead has the greatest depth and the rule makes these children.
fn is_deep(event: &Event, children: &[Kind]) -> bool
    requires { children.now ≡ born_kinds event.now.lead_kind event.now.other_kind }
    ensures { IsTrue result ↔ IsDeep event.now }
{
    event.lead().depth() == MAX_DEPTH && !children.is_empty()
}

impl Net {
    /// Whether the event's two agents are there, of these kinds, with their principal ports as partners.
    fn meets(&self, event: &Event) -> bool
        ensures { IsTrue result ↔ Meets (shown self.now) event.now }
    {
        event.lawful();
        is_kind(self.kind(event.lead()), event.lead_kind())
            && is_kind(self.kind(event.other()), event.other_kind())
            && self.joins(event.lead(), event.other())
    }

    /// Whether the principal port of the first agent has that of the other as its partner.
    fn joins(&self, lead: &AgentName, other: &AgentName) -> bool
        ensures { IsTrue result ↔ ((shown self.now).partner (ports.Of lead.now 0) ≡ Some (ports.Of other.now 0)) }
    {
        match self.agents.get(lead) {
            Some(agent) => is_principal(agent.partners.as_slice(), other),
            None => false,
        }
    }

    /// One interaction (Lafont 1997): the event's two agents go, its children come, and the partners of the pair's
    /// auxiliary ports are wired up as the rule says. The links of the rule are taken by place, each on the partners as
    /// they then are.
    ///
    /// `NotActive` if the two agents aren't there, of these kinds, with their principal ports as partners; else `Deep` if
    /// the lead has the greatest depth and the rule makes children; else `Memory` if memory runs out, or the net would
    /// come to 2^32 agents or 2^63 rings. A refused step leaves the net as it was.
    pub fn step(&mut self, alloc: Global, event: &Event) -> Result<(), StepFault>
        ensures defined { IfOk result (λ _. Meets (shown self.old) event.now × (IsDeep event.now → ⊥)) }
        ensures stepped { IfOk result (λ _. IsSameNet (shown self.new) (plain_step (shown self.old) event.now)) }
        ensures refused { IfErr result (IsRefused (shown self.old) event.now) }
        ensures unchanged { IfErr result (λ _. self.new ≡ self.old) }
    {
        if !self.meets(event) {
            return Err(StepFault::NotActive);
        }
        let born = outcome(event.lead_kind(), event.other_kind(), self.profile());
        if is_deep(event, born.children) {
            return Err(StepFault::Deep);
        }
        // the two agents of the pair go
        if self.agents() + born.children.len() >= TOO_MANY_AGENTS + 2 {
            return Err(StepFault::Memory);
        }
        let Rewiring { writes, rings } = Rewiring::of_event(alloc, self, event, born.links)?;
        put_children(&mut self.agents, event.lead(), 0, born.children)?;
        put_partners(&mut self.agents, &mut self.frees, writes);
        let _ = self.agents.remove(event.lead());
        let _ = self.agents.remove(event.other());
        self.rings = rings;
        Ok(())
    }
}
