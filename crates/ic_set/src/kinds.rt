ghost use Rattle.std.specs.Prelude.{◌≡◌};
ghost use Rattle.ic_theory.specs.Nets.{kind_of};
ghost use Rattle.ic_set.specs.Views.{standing};

use crate::bare::BareSet;
use ic_link::LinkStore;
use ic_name::{AgentName, Kind};

impl<L: LinkStore> BareSet<L> {
    /// The kind of the agent of this name; `None` if there is none, or a standing event consumed it. It takes no memory.
    pub fn kind(&self, name: &AgentName) -> Option<Kind>
        ensures { result ≡ kind_of self.now.set.start (standing self.now.set) name.now }
    {
        let agent = self.roster.find(name)?;
        let entry = self.roster.agent(agent)?;
        // There is none exactly if a standing event consumed the agent.
        self.principal_partner(agent, entry.name)?;
        Some(entry.kind)
    }
}
