ghost use Rattle.std.specs.Prelude.{◌≡◌, ◌≢◌, ◌↔◌, ◌++◌, IsSome, IfSome, IfOk, OnOk};
ghost use Rattle.std.proofs.Common.{rules};
ghost use Rattle.std.specs.Cmp.{partial_order_from_own_ties};
ghost use Rattle.std.specs.Cmp.Rules.{comparing};
ghost use Rattle.std.specs.Ordering.{as_partial_cmp, eq_by_cmp};
ghost use Rattle.std.specs.declared.cmp.Ordering.TheVariants.{Less};
ghost use Rattle.ic_name.specs.Names.{name_cmp};
ghost use Rattle.ic_name.specs.NameTexts.{pair_text};
ghost use Rattle.ic_name.specs.Events.{pair_of, pair_cmp};

use crate::names::AgentName;
use std::alloc::AllocError;
use std::cmp::Ordering;
use std::marker::Model;

/// The name of an event: the two agents that meet, the lesser one, its lead, first.
#[derive(Drop)]
pub struct EventName {
    pub(crate) lead: AgentName,
    pub(crate) other: AgentName,
}

impl Model for EventName {
    ghost use Rattle.std.specs.Prelude.{◌≡◌};
    ghost use Rattle.std.specs.declared.cmp.Ordering.TheVariants.{Less};
    ghost use Rattle.ic_name.specs.Names.{name_cmp};
    ghost use Rattle.ic_name.specs.Events.{Pair};

    ghost Value = { Pair };

    ghost view = { λ e. record { lead = e.lead; other = e.other } };

    ghost invariant = { λ e. name_cmp e.lead e.other ≡ Less };
}

impl EventName {
    /// The event of two agents, in whichever order they are given. `None` for equal names.
    #[tactic(auto, using(crate::proofs::NameOrder::name_flip, crate::proofs::NameOrder::name_tied, crate::proofs::NameOrder::name_less_apart, crate::proofs::NameOrder::name_greater_apart))]
    pub fn of(a: AgentName, b: AgentName) -> Option<EventName>
        ensures some { IsSome result ↔ (a ≢ b) }
        ensures pair { IfSome result (λ e. e ≡ pair_of a b) }
        ensures ordered { IfSome result (λ e. name_cmp e.lead e.other ≡ Less) }
    {
        match a.cmp(&b) {
            Ordering::Less => Some(EventName { lead: a, other: b }),
            Ordering::Equal => None,
            Ordering::Greater => Some(EventName { lead: b, other: a }),
        }
    }

    /// The invariant of every event's name: the lead is the lesser one.
    pub fn lawful(&self)
        ensures { name_cmp self.now.lead self.now.other ≡ Less }
    {
        let _ = &self.lead;
    }

    /// The lesser of the two agents.
    pub fn lead(&self) -> &AgentName
        ensures { result.now ≡ self.now.lead }
    {
        &self.lead
    }

    /// The greater of the two agents.
    pub fn other(&self) -> &AgentName
        ensures { result.now ≡ self.now.other }
    {
        &self.other
    }

    /// The same name once more.
    pub fn copy(&self) -> Result<EventName, AllocError>
        ensures { IfOk result (λ e. e ≡ self.now) }
    {
        let lead = self.lead.copy()?;
        let other = self.other.copy()?;
        Ok(EventName { lead, other })
    }
}

impl PartialEq for EventName {
    ghost eq = { eq_by_cmp pair_cmp };

    ghost laws = { Prim.search (comparing, rules) depth 9 };

    fn eq(&self, other: &EventName) -> bool {
        self.cmp(other).is_eq()
    }
}

impl Eq for EventName {
    ghost laws = { Prim.search (comparing, rules) depth 9 };
}

/// By lead, then by the other agent. It takes no memory.
impl Ord for EventName {
    ghost cmp = { pair_cmp };

    ghost total = { Prim.search (comparing, rules) depth 9 };

    ghost matches_partial_cmp = { Prim.search (comparing, rules) depth 9 };

    ghost matches_eq = { Prim.search (comparing, rules) depth 9 };

    fn cmp(&self, other: &EventName) -> Ordering {
        self.lead
            .cmp(&other.lead)
            .then_with(|| self.other.cmp(&other.other))
    }
}

impl PartialOrd for EventName {
    ghost partial_cmp = { as_partial_cmp pair_cmp };

    ghost laws = { partial_order_from_own_ties (Prim.search (comparing, rules) depth 9) (Prim.search (comparing, rules) depth 9) };

    fn partial_cmp(&self, other: &EventName) -> Option<Ordering> {
        Some(self.cmp(other))
    }
}

/// Writes the names of an event's two agents at the end of `out`: the lead, a space, the other. An error comes when memory
/// runs out, and then `out` may end in a front of this text.
pub fn write_pair(lead: &AgentName, other: &AgentName, out: &mut Vec<u8>) -> Result<(), AllocError>
    ensures { OnOk result (out.new.items ≡ out.old.items ++ pair_text (record { lead = lead.now; other = other.now })) }
{
    lead.write_to(out)?;
    out.push(b' ')?;
    other.write_to(out)?;
    Ok(())
}
