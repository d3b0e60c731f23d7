ghost use Rattle.std.specs.Prelude.{◌≡◌, length, Some, if◌then◌else◌, slice_set};
ghost use Rattle.std.specs.BTreeMap.{IsOrdered};
ghost use Rattle.std.specs.Ordering.{nat_cmp};
ghost use Rattle.ic_name.specs.Names.{Name, name_cmp};
ghost use Rattle.ic_name.specs.Same.{same_port};
ghost use Rattle.ic_name.specs.declared.ports.Port.{Port as APort};
ghost use Rattle.ic_net.specs.Sheets.{partner_list};
ghost use Rattle.ic_net.specs.Tables.{kind_in, found_at, settle, settled};

use crate::agents::{NetAgent, Partners};
use ic_name::{AgentName, Port};
use std::collections::BTreeMap;

/// The slot of this number gets this partner, if there is such a slot.
fn put_slot(slots: &mut [Port], number: u8, partner: Port)
    ensures { slots.new ≡ slice_set slots.old number partner }
{
    if usize::from(number) < slots.len() {
        slots[usize::from(number)] = partner;
    }
}

/// The agent's port of this number gets this partner, if it has that port.
fn put_at(agent: &mut NetAgent, number: u8, partner: Port)
    ensures kind { agent.new.kind ≡ agent.old.kind }
    ensures partners { partner_list agent.new.partners ≡ slice_set (partner_list agent.old.partners) number partner }
{
    match &mut agent.partners {
        Partners::One(slots) => put_slot(slots, number, partner),
        Partners::Three(slots) => put_slot(slots, number, partner),
    }
}

/// The port gets this partner, if the tables have the port.
fn put_partner(
    agents: &mut BTreeMap<AgentName, NetAgent>,
    frees: &mut BTreeMap<u32, Port>,
    port: Port,
    partner: Port,
)
    ensures kinds { (n : Name) → kind_in agents.new.entries n ≡ kind_in agents.old.entries n }
    ensures partners { (x : APort) → found_at agents.new.entries frees.new.entries x ≡ (if same_port x port then settle (found_at agents.old.entries frees.old.entries x) (Some partner) else found_at agents.old.entries frees.old.entries x) }
    ensures agents { length agents.new.entries ≡ length agents.old.entries }
    ensures frees { length frees.new.entries ≡ length frees.old.entries }
    ensures names { IsOrdered name_cmp agents.new }
    ensures numbers { IsOrdered nat_cmp frees.new }
{
    let _ = agents.len();
    let _ = frees.len();
    match port {
        Port::Of(name, number) => {
            if let Some(agent) = agents.get_mut(&name) {
                put_at(agent, number, partner);
            }
        }
        Port::Name(number) => {
            if let Some(found) = frees.get_mut(&number) {
                *found = partner;
            }
        }
    }
}

/// The partners that were written are entered in turn.
pub(crate) fn put_partners(
    agents: &mut BTreeMap<AgentName, NetAgent>,
    frees: &mut BTreeMap<u32, Port>,
    writes: Vec<(Port, Option<Port>)>,
)
    ensures kinds { (n : Name) → kind_in agents.new.entries n ≡ kind_in agents.old.entries n }
    ensures partners { (x : APort) → found_at agents.new.entries frees.new.entries x ≡ settled x (found_at agents.old.entries frees.old.entries x) writes.items }
    ensures agents { length agents.new.entries ≡ length agents.old.entries }
    ensures frees { length frees.new.entries ≡ length frees.old.entries }
    ensures names { IsOrdered name_cmp agents.new }
    ensures numbers { IsOrdered nat_cmp frees.new }
{
    let _ = agents.len();
    let _ = frees.len();
    for (port, partner) in writes {
        if let Some(partner) = partner {
            put_partner(agents, frees, port, partner);
        }
    }
}
