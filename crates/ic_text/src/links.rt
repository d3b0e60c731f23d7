ghost use Rattle.std.specs.Prelude.{◌≡◌, ◌<◌, ◌^◌, ◌++◌, ◌∷◌, [], length, map, OnOk};
ghost use Rattle.ic_start.specs.Starts.{join_of};
ghost use Rattle.ic_text.specs.Ends.{port_of_end};

use ic_start::{End, StartLinks};
use std::alloc::{AllocError, Global};
use std::marker::Model;

/// The links of a text, by the ports that they join.
#[derive(Drop)]
pub struct Links {
    links: StartLinks,
}

impl Model for Links {
    ghost use Rattle.std.specs.Prelude.{List, map};
    ghost use Rattle.ic_name.specs.declared.ports.Port.{Port};
    ghost use Rattle.ic_start.specs.Starts.{join_of};

    ghost Value = { List (Port × Port) };

    ghost view = { λ l. map join_of l.links };
}

impl Links {
    /// No links.
    pub fn new(alloc: Global) -> Links
        ensures { result ≡ [] }
    {
        Links {
            links: StartLinks::new(alloc),
        }
    }

    /// One link more, between these ends.
    pub fn push(&mut self, a: End, b: End) -> Result<(), AllocError>
        requires { length self.old < 2 ^ 32 }
        ensures { OnOk result (self.new ≡ self.old ++ (port_of_end a, port_of_end b) ∷ []) }
    {
        self.links.push(a, b)?;
        Ok(())
    }

    /// The links, in no more memory than they need.
    pub fn into_start(self) -> StartLinks
        ensures { map join_of result ≡ self }
    {
        let mut links = self.links;
        links.shrink_to_fit();
        links
    }
}
