ghost use Rattle.std.specs.Prelude.{◌≡◌, ◌↔◌, ◌≤◌, ◌<◌, ◌^◌, IfOk, IsTrue, length, map, slice_get};
ghost use Rattle.ic_theory.specs.Starts.{IsProper};
ghost use Rattle.ic_start.specs.Starts.{IsStart, AreStartLinks, start_of, join_of};

use crate::links::StartLinks;
use crate::texts::Texts;
use ic_name::limits::MAX_START_AGENTS;
use ic_name::{Kind, Profile};
use std::alloc::{AllocError, Global};
use std::marker::Model;
use std::sync::Arc;

/// What a text denotes: the kinds of its agents, its links, the texts of its names, and its profile.
///
/// Agent k has the id with slot k and serial 0. Each port of an agent has one end of a link, each name one or two.
/// Copies of a start share its parts.
#[derive(Drop)]
pub struct Start {
    parts: Arc<Parts>,
}

/// What the copies of a start share.
#[derive(Drop)]
struct Parts {
    kinds: Vec<Kind>,
    links: StartLinks,
    names: Texts,
    profile: Profile,
}

impl Model for Start {
    ghost use Rattle.std.specs.Prelude.{map};
    ghost use Rattle.std.specs.Arc.{arc_value};
    ghost use Rattle.ic_theory.specs.Starts.{Start};

    ghost Value = { Start };

    ghost use Rattle.ic_start.specs.Starts.{IsStart, start_of};

    ghost view = { λ s. let parts = arc_value s.parts in start_of parts.kinds.items parts.links parts.names parts.profile };

    ghost invariant = { λ s. let parts = arc_value s.parts in IsStart parts.kinds.items parts.links parts.names parts.profile };
}

impl Start {
    /// The start of these kinds, links and texts of names; an error if memory runs out.
    pub fn make(
        alloc: Global,
        kinds: Vec<Kind>,
        links: StartLinks,
        names: Texts,
        profile: Profile,
    ) -> Result<Start, AllocError>
        requires { IsStart kinds.items links names profile }
        ensures { IfOk result (λ start. start ≡ start_of kinds.items links names profile) }
    {
        let parts = Parts {
            kinds,
            links,
            names,
            profile,
        };
        let parts = Arc::new(alloc, parts)?;
        Ok(Start { parts })
    }

    /// The invariant of every start.
    pub fn lawful(&self)
        ensures proper { IsProper self.now }
        ensures few_agents { length self.now.kinds ≤ MAX_START_AGENTS }
        ensures few_names { length self.now.names < 2 ^ 32 }
    {
        let _ = &self.parts.kinds;
    }

    /// Whether two starts are one. It takes no memory.
    pub fn same(&self, other: &Start) -> bool
        ensures { IsTrue result ↔ (self.now ≡ other.now) }
    {
        let (left, right) = (&*self.parts, &*other.parts);
        left.kinds == right.kinds
            && left.links.same(&right.links)
            && left.names.same(&right.names)
            && left.profile == right.profile
    }

    /// The start once more, which shares its parts: it takes no memory. An error comes only where there are as many copies as
    /// can be counted.
    pub fn copy(&self) -> Result<Start, AllocError>
        ensures { IfOk result (λ copy. copy ≡ self.now) }
    {
        let parts = Arc::try_clone(&self.parts)?;
        Ok(Start { parts })
    }

    /// The kind of the agent of this number, where there is one.
    pub fn kind(&self, number: usize) -> Option<Kind>
        ensures { result ≡ slice_get self.now.kinds number }
    {
        self.parts.kinds.get(number).copied()
    }

    /// The kinds of the agents, by number.
    pub fn kinds(&self) -> &[Kind]
        ensures { result.now ≡ self.now.kinds }
    {
        &self.parts.kinds
    }

    /// The number of agents.
    pub fn agents(&self) -> usize
        ensures { result ≡ length self.now.kinds }
    {
        self.parts.kinds.len()
    }

    /// The links, by place.
    pub fn links(&self) -> &StartLinks
        ensures joins { map join_of result.now ≡ self.now.joins }
        ensures placed { AreStartLinks (length self.now.kinds) (length self.now.names) 0 result.now }
    {
        &self.parts.links
    }

    /// The texts of the names, by number.
    pub fn names(&self) -> &Texts
        ensures { result.now ≡ self.now.names }
    {
        &self.parts.names
    }

    /// Which ports an annihilation of two gammas joins.
    pub fn profile(&self) -> Profile
        ensures { result ≡ self.now.profile }
    {
        self.parts.profile
    }
}
