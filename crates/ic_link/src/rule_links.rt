ghost use Rattle.std.specs.Prelude.{◌≡◌, ◌<◌, ◌≤◌, length, slice_index_or};
ghost use Rattle.ic_name.specs.declared.ids.Spot.TheVariants.{Agent};
ghost use Rattle.ic_link.specs.Made.{link_at, no_spots, rule_spots, spot_of, HasDigit, HaveDigits};

use ic_name::{AgentId, EventId, Link, LinkId, MakerId, RuleEnd, Spot};

/// The links that an event makes by its rule, between ports of its two agents and of its children.
#[derive(Clone, Copy)]
pub struct RuleLinks<'a> {
    pub event: EventId,
    pub lead: AgentId,
    pub other: AgentId,
    /// The children, by digit.
    pub born: &'a [AgentId],
    /// The two ends of each link, by place.
    pub ends: &'a [(RuleEnd, RuleEnd)],
}

impl RuleLinks<'_> {
    /// The agent whose port an end of the rule is, and the port's number.
    #[inline(always)]
    pub fn port(&self, end: RuleEnd) -> (AgentId, u8)
        requires { HasDigit self.now.born.now end }
        ensures { Agent result.0 result.1 ≡ spot_of self.now.lead self.now.other self.now.born.now end }
    {
        match end {
            RuleEnd::Child(digit, port) => (self.born[digit as usize], port),
            RuleEnd::Lead(port) => (self.lead, port),
            RuleEnd::Other(port) => (self.other, port),
        }
    }

    /// The link at this place.
    pub(crate) fn link(&self, place: usize) -> Link
        requires digits { HaveDigits self.now.born.now self.now.ends.now }
        requires few { length self.now.ends.now ≤ 8 }
        requires inside { place < length self.now.ends.now }
        ensures { result ≡ link_at self.now.event place (slice_index_or (rule_spots self.now) place no_spots) }
    {
        let (a, b) = self.ends[place];
        let (agent_a, port_a) = self.port(a);
        let (agent_b, port_b) = self.port(b);
        Link {
            id: LinkId {
                maker: MakerId::Event(self.event),
                place: place as u32,
            },
            a: Spot::Agent(agent_a, port_a),
            b: Spot::Agent(agent_b, port_b),
        }
    }
}
