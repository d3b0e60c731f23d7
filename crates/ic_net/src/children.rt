ghost use Rattle.std.specs.Prelude.{◌≡◌, ℕ, ◌+◌, ◌≤◌, None, Some, length, OnOk, OnErr};
ghost use Rattle.std.specs.BTreeMap.{IsOrdered};
ghost use Rattle.ic_name.specs.Kinds.{arity};
ghost use Rattle.ic_name.specs.Names.{Name, child_name, name_cmp};
ghost use Rattle.ic_name.specs.declared.kinds.Kind.{Kind as AKind};
ghost use Rattle.ic_theory.specs.Born.{named};
ghost use Rattle.ic_theory.specs.Nets.{kind_among};
ghost use Rattle.ic_net.specs.Sheets.{partner_list};
ghost use Rattle.ic_net.specs.Tables.{agent_in, IsBlank};

use crate::agents::{NetAgent, Partners};
use crate::rewiring::child_of;
use ic_name::{AgentName, Kind, Port};
use std::alloc::AllocError;
use std::collections::BTreeMap;

/// Partners for an agent of this kind that has got none yet.
fn blank_partners(kind: Kind) -> Partners
    ensures { length (partner_list result) ≡ arity kind + 1 }
{
    match kind {
        Kind::Eps => Partners::One([Port::Name(0)]),
        Kind::Gamma | Kind::Delta => {
            Partners::Three([Port::Name(0), Port::Name(0), Port::Name(0)])
        }
    }
}

/// Adds children of these kinds, the first with this digit. If memory runs out, the table is as it was.
pub(crate) fn put_children(
    agents: &mut BTreeMap<AgentName, NetAgent>,
    lead: &AgentName,
    digit: u8,
    kinds: &[Kind],
) -> Result<(), AllocError>
    requires digits { digit + length kinds.now ≤ 4 }
    requires fresh { (d : ℕ) → digit ≤ d → agent_in agents.old.entries (child_name lead.now d) ≡ None }
    ensures others { OnOk result ((n : Name) → kind_among n (named (child_name lead.now) digit kinds.now) ≡ None → agent_in agents.new.entries n ≡ agent_in agents.old.entries n) }
    ensures born { OnOk result ((n : Name) (k : AKind) → kind_among n (named (child_name lead.now) digit kinds.now) ≡ Some k → IsBlank k (agent_in agents.new.entries n)) }
    ensures count { OnOk result (length agents.new.entries ≡ length agents.old.entries + length kinds.now) }
    ensures ordered { IsOrdered name_cmp agents.new }
    ensures unchanged { OnErr result (agents.new.entries ≡ agents.old.entries) }
{
    let _ = agents.len();
    let Some((kind, rest)) = kinds.split_first() else {
        return Ok(());
    };
    let name = child_of(lead, digit)?;
    let key = child_of(lead, digit)?;
    let partners = blank_partners(*kind);
    let _ = agents.insert(
        name,
        NetAgent {
            kind: *kind,
            partners,
        },
    )?;
    match put_children(agents, lead, digit + 1, rest) {
        Ok(()) => Ok(()),
        Err(error) => {
            let _ = agents.remove(&key);
            Err(error)
        }
    }
}
