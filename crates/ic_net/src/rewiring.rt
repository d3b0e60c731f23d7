ghost use Rattle.std.specs.Prelude.{◌≡◌, ◌+◌, ◌<◌, ◌^◌, [], ◌∷◌, ◌++◌, Option, IfOk, OnOk, option_copied};
ghost use Rattle.ic_name.specs.Names.{child_name};
ghost use Rattle.ic_name.specs.declared.ports.Port.{Port as APort};
ghost use Rattle.ic_theory.specs.Born.{port_of};
ghost use Rattle.ic_theory.specs.Listed.{shown};
ghost use Rattle.ic_theory.specs.Steps.{without_pair, with_wire, join_found, pass_found, take_link, take_links};
ghost use Rattle.ic_net.specs.Rewirings.{rewired, wiring, IsRuleEnd, AreRuleEnds};

use crate::net::Net;
use crate::same::same_port;
use ic_name::{AgentName, Event, Port, RuleEnd};
use std::alloc::{AllocError, Global};

/// A net has fewer rings.
const TOO_MANY_RINGS: u64 = 1 << 63;

/// The partners that a step writes over those of a net, the latest last, and the number of rings that it leaves.
#[derive(Drop)]
pub struct Rewiring {
    pub(crate) writes: Vec<(Port, Option<Port>)>,
    pub(crate) rings: u64,
}

/// The same port once more.
fn copy_port(port: &Port) -> Result<Port, AllocError>
    ensures { IfOk result (λ p. p ≡ port.now) }
{
    match port {
        Port::Of(name, number) => Ok(Port::Of(name.copy()?, *number)),
        Port::Name(number) => Ok(Port::Name(*number)),
    }
}

/// The name of a child.
pub(crate) fn child_of(lead: &AgentName, digit: u8) -> Result<AgentName, AllocError>
    requires { digit < 4 }
    ensures { IfOk result (λ name. name ≡ child_name lead.now digit) }
{
    lead.child(digit).map_err(|_| AllocError)
}

/// The port that an end of a rule's link is.
fn port_of(event: &Event, end: RuleEnd) -> Result<Port, AllocError>
    requires { IsRuleEnd end }
    ensures { IfOk result (λ p. p ≡ port_of event.now end) }
{
    match end {
        RuleEnd::Child(digit, number) => Ok(Port::Of(child_of(event.lead(), digit)?, number)),
        RuleEnd::Lead(number) => Ok(Port::Of(event.lead().copy()?, number)),
        RuleEnd::Other(number) => Ok(Port::Of(event.other().copy()?, number)),
    }
}

impl Rewiring {
    /// The partner of a port as it is by now.
    fn partner<'a>(&'a self, net: &'a Net, port: &Port) -> Option<&'a Port>
        ensures { option_copied result ≡ rewired (shown net.now).partner self.now.writes.items port.now }
    {
        let mut found = net.partner(port);
        for write in &self.writes {
            if same_port(port, &write.0) {
                found = write.1.as_ref();
            }
        }
        found
    }

    /// A copy of the partner of a port as it is by now.
    fn partner_copy(&self, net: &Net, port: &Port) -> Result<Option<Port>, AllocError>
        ensures { IfOk result (λ found. found ≡ rewired (shown net.now).partner self.now.writes.items port.now) }
    {
        match self.partner(net, port) {
            Some(found) => Ok(Some(copy_port(found)?)),
            None => Ok(None),
        }
    }

    /// The port has this partner from now on, or none.
    fn write(&mut self, port: Port, partner: Option<Port>) -> Result<(), AllocError>
        ensures written { OnOk result (self.new.writes.items ≡ self.old.writes.items ++ (port, partner) ∷ []) }
        ensures rings { self.new.rings ≡ self.old.rings }
    {
        self.writes.push((port, partner))?;
        Ok(())
    }

    /// The two ports are partners now.
    fn wire(&mut self, left: Port, right: Port) -> Result<(), AllocError>
        ensures wired { OnOk result ((partner : APort → Option APort) → wiring partner self.new ≡ record { partner = with_wire left right (rewired partner self.old.writes.items); rings = self.old.rings }) }
        ensures rings { self.new.rings ≡ self.old.rings }
    {
        let to_left = copy_port(&left)?;
        let to_right = copy_port(&right)?;
        self.write(right, Some(to_left))?;
        self.write(left, Some(to_right))
    }

    /// A link between two ports of the pair is taken.
    fn join(&mut self, net: &Net, left: Port, right: Port) -> Result<(), AllocError>
        requires few { self.old.rings < 2 ^ 63 }
        ensures joined { OnOk result (let w = wiring (shown net.now).partner self.old in wiring (shown net.now).partner self.new ≡ join_found (w.partner left) (w.partner right) left right w) }
        ensures few { OnOk result (self.new.rings < 2 ^ 63) }
    {
        let Some(from_left) = self.partner_copy(net, &left)? else {
            return Ok(());
        };
        let Some(from_right) = self.partner_copy(net, &right)? else {
            return Ok(());
        };
        let closes = same_port(&from_left, &right);
        self.write(right, None)?;
        self.write(left, None)?;
        if closes {
            self.close()
        } else {
            self.wire(from_left, from_right)
        }
    }

    /// There is one ring more.
    fn close(&mut self) -> Result<(), AllocError>
        requires few { self.old.rings < 2 ^ 63 }
        ensures writes { self.new.writes.items ≡ self.old.writes.items }
        ensures rings { OnOk result (self.new.rings ≡ self.old.rings + 1) }
        ensures few { OnOk result (self.new.rings < 2 ^ 63) }
    {
        if self.rings + 1 >= TOO_MANY_RINGS {
            return Err(AllocError);
        }
        self.rings += 1;
        Ok(())
    }

    /// A link from a child's port to a port of the pair is taken.
    fn pass(&mut self, net: &Net, child: Port, port: Port) -> Result<(), AllocError>
        ensures passed { OnOk result (let w = wiring (shown net.now).partner self.old in wiring (shown net.now).partner self.new ≡ pass_found (w.partner port) child port w) }
        ensures rings { self.new.rings ≡ self.old.rings }
    {
        let Some(from_port) = self.partner_copy(net, &port)? else {
            return Ok(());
        };
        self.write(port, None)?;
        self.wire(child, from_port)
    }

    /// A link of a rule is taken.
    fn take(&mut self, net: &Net, event: &Event, a: RuleEnd, b: RuleEnd) -> Result<(), AllocError>
        requires left { IsRuleEnd a }
        requires right { IsRuleEnd b }
        requires few { self.old.rings < 2 ^ 63 }
        ensures taken { OnOk result (wiring (shown net.now).partner self.new ≡ take_link a b (port_of event.now a) (port_of event.now b) (wiring (shown net.now).partner self.old)) }
        ensures few { OnOk result (self.new.rings < 2 ^ 63) }
    {
        let left = port_of(event, a)?;
        let right = port_of(event, b)?;
        match a {
            RuleEnd::Child(_, _) => match b {
                RuleEnd::Child(_, _) => self.wire(left, right),
                _ => self.pass(net, left, right),
            },
            _ => match b {
                RuleEnd::Child(_, _) => self.pass(net, right, left),
                _ => self.join(net, left, right),
            },
        }
    }

    /// The links of a rule are taken by place, once the wire between the two principal ports is taken away.
    pub(crate) fn of_event(
        alloc: Global,
        net: &Net,
        event: &Event,
        links: &[(RuleEnd, RuleEnd)],
    ) -> Result<Rewiring, AllocError>
        requires { AreRuleEnds links.now }
        ensures wiring { IfOk result (λ r. wiring (shown net.now).partner r ≡ take_links event.now links.now (record { partner = without_pair event.now (shown net.now).partner; rings = net.now.rings })) }
        ensures few { IfOk result (λ r. r.rings < 2 ^ 63) }
    {
        net.lawful();
        let mut rewiring = Rewiring {
            writes: Vec::new(alloc),
            rings: net.rings(),
        };
        rewiring.write(Port::Of(event.other().copy()?, 0), None)?;
        rewiring.write(Port::Of(event.lead().copy()?, 0), None)?;
        for (a, b) in links {
            rewiring.take(net, event, *a, *b)?;
        }
        Ok(rewiring)
    }
}
