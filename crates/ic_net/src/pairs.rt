ghost use Rattle.std.specs.Prelude.{◌≡◌, [], ◌++◌, map, OnOk, IfOk, slice_get};
ghost use Rattle.std.specs.List.{filter_map, cons_option};
ghost use Rattle.ic_theory.specs.Listed.{led_pair};
ghost use Rattle.ic_net.specs.Sheets.{partner_list, listed_agent};
ghost use Rattle.ic_net.specs.Nets.{pair_led_by};

use crate::agents::NetAgent;
use ic_name::{AgentName, Port};
use std::alloc::{AllocError, Global};
use std::collections::BTreeMap;

/// Enters the active pair that an agent leads, if it leads one.
fn push_led(
    pairs: &mut Vec<(AgentName, AgentName)>,
    name: &AgentName,
    agent: &NetAgent,
) -> Result<(), AllocError>
    ensures { OnOk result (pairs.new.items ≡ pairs.old.items ++ cons_option (led_pair name.now (slice_get (partner_list agent.now.partners) 0)) []) }
{
    match agent.partners.as_slice().first() {
        Some(Port::Of(other, 0)) => {
            if name.cmp(other).is_lt() {
                pairs.push((name.copy()?, other.copy()?))?;
            }
            Ok(())
        }
        _ => Ok(()),
    }
}

/// The active pairs of a table of agents, by lead.
pub(crate) fn active_of(
    alloc: Global,
    agents: &BTreeMap<AgentName, NetAgent>,
) -> Result<Vec<(AgentName, AgentName)>, AllocError>
    ensures { IfOk result (λ pairs. pairs.items ≡ filter_map pair_led_by (map listed_agent agents.now.entries)) }
{
    let mut pairs = Vec::new(alloc);
    for (name, agent) in agents {
        push_led(&mut pairs, name, agent)?;
    }
    Ok(pairs)
}
