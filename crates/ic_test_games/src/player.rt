use ic_journal::{Bench, Proposal, Store};
use ic_name::{AgentId, AgentName, EventId};
use ic_text::read_net;
use std::alloc::Global;
use std::test::Fail;

/// A call of a bench. Agents have their names as texts, and firings are numbered from 0 on.
#[derive(Clone, Copy)]
pub enum Step {
    /// A proposal that two agents meet is made and kept.
    Propose(&'static [u8], &'static [u8]),
    /// Of the proposals that are kept, the one that was made last is fired.
    FireKept,
    /// A proposal that two agents meet is made and fired.
    Fire(&'static [u8], &'static [u8]),
    /// The event of a firing is undone.
    Undo(usize),
    /// Room for so many lines is reserved.
    Reserve(usize),
}

/// A bench, with the proposals that are kept and the ids of the firings.
#[derive(Drop)]
pub struct Player {
    alloc: Global,
    pub bench: Bench<Store>,
    kept: Vec<Proposal>,
    fired: Vec<EventId>,
}

impl Player {
    /// A bench over the net of a text.
    pub fn over(alloc: Global, text: &[u8]) -> Result<Player, Fail> {
        let start = read_net(alloc, text)?;
        Ok(Player {
            alloc,
            bench: Bench::over(alloc, start)?,
            kept: Vec::new(alloc),
            fired: Vec::new(alloc),
        })
    }

    /// Whether each step is answered by the number beside it: that of a refusal, or 0.
    pub fn plays(&mut self, steps: &[(Step, u8)]) -> Result<bool, Fail> {
        for (step, number) in steps {
            if self.take(step)? != *number {
                return Ok(false);
            }
        }
        Ok(true)
    }

    /// Takes a step, and answers the number of its refusal, or 0.
    fn take(&mut self, step: &Step) -> Result<u8, Fail> {
        match step {
            Step::Propose(a, b) => self.propose(a, b),
            Step::FireKept => self.fire_kept(),
            Step::Fire(a, b) => self.fire(a, b),
            Step::Undo(number) => self.undo(*number),
            Step::Reserve(lines) => Ok(self.reserve(*lines)),
        }
    }

    /// The id of the agent of a name.
    pub fn agent(&self, text: &[u8]) -> Result<AgentId, Fail> {
        let name = AgentName::read(self.alloc, text)?;
        match self.bench.agent(&name) {
            Some(id) => Ok(id),
            None => Err("an agent".into()),
        }
    }

    fn propose(&mut self, a: &[u8], b: &[u8]) -> Result<u8, Fail> {
        let left = self.agent(a)?;
        let right = self.agent(b)?;
        match self.bench.propose(left, right) {
            Ok(proposal) => {
                self.kept.push(proposal)?;
                Ok(0)
            }
            Err(fault) => Ok(fault.number()),
        }
    }

    fn fire_kept(&mut self) -> Result<u8, Fail> {
        let Some(proposal) = self.kept.pop() else {
            return Err("a proposal".into());
        };
        match self.bench.fire(proposal) {
            Ok(id) => {
                self.fired.push(id)?;
                Ok(0)
            }
            Err(fault) => Ok(fault.number()),
        }
    }

    fn fire(&mut self, a: &[u8], b: &[u8]) -> Result<u8, Fail> {
        let number = self.propose(a, b)?;
        if number != 0 {
            return Ok(number);
        }
        self.fire_kept()
    }

    fn undo(&mut self, number: usize) -> Result<u8, Fail> {
        let id = self.id(number)?;
        match self.bench.undo(id) {
            Ok(()) => Ok(0),
            Err(fault) => Ok(fault.number()),
        }
    }

    /// Reserves room, and answers the number of the refusal, or 0.
    pub fn reserve(&mut self, lines: usize) -> u8 {
        match self.bench.reserve(lines) {
            Ok(()) => 0,
            Err(fault) => fault.number(),
        }
    }

    /// The id that a firing answered.
    pub fn id(&self, number: usize) -> Result<EventId, Fail> {
        match self.fired.get(number) {
            Some(id) => Ok(*id),
            None => Err("a firing".into()),
        }
    }

    /// Whether the bench has so many lines in its history.
    pub fn has_lines(&self, count: usize) -> Result<bool, Fail> {
        let lines = self.bench.history()?;
        Ok(lines.len() == count)
    }
}

/// What is played on a bench.
pub trait Game {
    /// Whether all answers are as the game wants them.
    fn is_won(&self, alloc: Global, player: &mut Player) -> Result<bool, Fail>;
}

/// Whether a game on a bench over the net of a text is won.
pub fn wins<G: Game>(alloc: Global, text: &[u8], game: &G) -> Result<bool, Fail> {
    let mut player = Player::over(alloc, text)?;
    game.is_won(alloc, &mut player)
}
