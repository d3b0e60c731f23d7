ghost use Rattle.std.specs.Prelude.{◌≡◌, ◌≤◌, ◌<◌, ◌^◌, ◌++◌, ◌∷◌, ◌↔◌, [], length, slice_get, IsTrue, OnOk, OnErr};
ghost use Rattle.ic_start.specs.Links.{spot_of, link_of, end_of, port_of, number_of, first_end, second_end, AreNumbered};

use ic_name::{AgentId, Link, LinkId, MakerId, Spot};
use std::alloc::{AllocError, Global};
use std::marker::Model;
use std::mem::size_of;

/// An end of a link of a start: a port of the agent with this number, or the name with this one.
#[derive(Clone, Copy, Debug, PartialEq, Eq)]
pub enum End {
    Agent { port: u8, number: u32 },
    Name(u32),
}

impl End {
    /// The end with this port and this number: an agent's, or without a port a name.
    fn new(port: Option<u8>, number: u32) -> End
        ensures { result ≡ end_of port number }
    {
        match port {
            Some(port) => End::Agent { port, number },
            None => End::Name(number),
        }
    }

    /// The port of the agent, where the end is one's.
    fn port(self) -> Option<u8>
        ensures { result ≡ port_of self }
    {
        match self {
            End::Agent { port, .. } => Some(port),
            End::Name(_) => None,
        }
    }

    /// The number of the agent or of the name.
    fn number(self) -> u32
        ensures { result ≡ number_of self }
    {
        match self {
            End::Agent { number, .. } => number,
            End::Name(number) => number,
        }
    }

    /// The spot that the end is: the agent's slot is its number.
    fn spot(self) -> Spot
        ensures { result ≡ spot_of self }
    {
        match self {
            End::Agent { port, number } => Spot::Agent(
                AgentId {
                    slot: number,
                    serial: 0,
                },
                port,
            ),
            End::Name(number) => Spot::Name(number),
        }
    }
}

/// The two ends of a link of a start: the number of each, and beside both their ports, none where an end is a name.
#[derive(Clone, Copy, PartialEq, Eq)]
struct Ends {
    a_number: u32,
    b_number: u32,
    a_port: Option<u8>,
    b_port: Option<u8>,
}

const _: () = prove!(size_of::<Ends>() == 12);

// A quarter of what a link takes, whose number is its place.
const _: () = prove!(4 * size_of::<Ends>() == size_of::<Link>());

impl Ends {
    /// These two ends.
    fn new(a: End, b: End) -> Ends
        ensures first { first_end result ≡ a }
        ensures second { second_end result ≡ b }
    {
        Ends {
            a_number: a.number(),
            b_number: b.number(),
            a_port: a.port(),
            b_port: b.port(),
        }
    }

    /// The first end.
    fn a(&self) -> End
        ensures { result ≡ first_end self.now }
    {
        End::new(self.a_port, self.a_number)
    }

    /// The second end.
    fn b(&self) -> End
        ensures { result ≡ second_end self.now }
    {
        End::new(self.b_port, self.b_number)
    }
}

/// The links of a start, numbered by place. Each is kept by its ends alone.
#[derive(Drop)]
pub struct StartLinks {
    ends: Vec<Ends>,
}

impl Model for StartLinks {
    ghost use Rattle.std.specs.Prelude.{◌≤◌, ◌^◌, List, length};
    ghost use Rattle.ic_name.specs.declared.ids.Link.{Link};
    ghost use Rattle.ic_start.specs.Links.{links_from};

    ghost Value = { List Link };

    ghost view = { λ l. links_from 0 l.ends.items };

    ghost invariant = { λ l. length l.ends.items ≤ 2 ^ 32 };
}

impl StartLinks {
    /// No links. It takes no memory yet.
    pub fn new(alloc: Global) -> StartLinks
        ensures { result ≡ [] }
    {
        StartLinks {
            ends: Vec::new(alloc),
        }
    }

    /// The invariant of the links of every start.
    pub fn lawful(&self)
        ensures numbered { AreNumbered 0 self.now }
        ensures few { length self.now ≤ 2 ^ 32 }
    {
        let _ = &self.ends;
    }

    /// One link more, between these ends. At an error memory ran out, and nothing changes.
    pub fn push(&mut self, a: End, b: End) -> Result<(), AllocError>
        requires { length self.old < 2 ^ 32 }
        ensures link { OnOk result (self.new ≡ self.old ++ link_of (length self.old) a b ∷ []) }
        ensures error { OnErr result (self.new ≡ self.old) }
    {
        self.ends.push(Ends::new(a, b))?;
        Ok(())
    }

    /// Gives back the memory that no link needs.
    pub fn shrink_to_fit(&mut self)
        ensures { self.new ≡ self.old }
    {
        self.ends.shrink_to_fit();
    }

    /// The number of links.
    pub fn len(&self) -> usize
        ensures { result ≡ length self.now }
    {
        self.ends.len()
    }

    /// The link with this number, where there is one.
    pub fn get(&self, number: usize) -> Option<Link>
        ensures { result ≡ slice_get self.now number }
    {
        let ends = self.ends.get(number)?;
        Some(Link {
            id: LinkId {
                maker: MakerId::Start,
                place: number as u32,
            },
            a: ends.a().spot(),
            b: ends.b().spot(),
        })
    }

    /// Whether these links are those. It takes no memory.
    pub fn same(&self, other: &StartLinks) -> bool
        ensures { IsTrue result ↔ (self.now ≡ other.now) }
    {
        self.ends == other.ends
    }
}
