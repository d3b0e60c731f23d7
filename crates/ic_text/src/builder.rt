ghost use Rattle.std.specs.Prelude.{◌≡◌, ◌<◌, ◌≤◌, ◌^◌, [], length, IfOk};
ghost use Rattle.ic_text.specs.declared.grammar.limits.TheConstants.{MAX_TEXT};
ghost use Rattle.ic_text.specs.Tokens.{symbol, name, profile, items, between};
ghost use Rattle.ic_text.specs.Reading.{Gives, initial, put, mark, advance, run, finish, is_at_rest, IsWithin};
ghost use Rattle.ic_text.specs.Ends.{port_of_end};
ghost use Rattle.ic_text.specs.Views.{token_of, side_of, state_of, GoesOn};

use crate::fault::TextFault;
use crate::grammar::Refusal;
use crate::grammar::limits::{MAX_FREE_NAMES, MAX_NAME, MAX_NESTING};
use crate::lexer::Lexeme;
use crate::links::Links;
use crate::names::Names;
use ic_name::limits::MAX_START_AGENTS;
use ic_name::{Kind, Profile};
use ic_start::{End, Start};
use std::alloc::{AllocError, Global};

/// What comes next in the parentheses of a symbol.
#[derive(Clone, Copy)]
pub enum Phase {
    Opening,
    First,
    Comma,
    Second,
    Closing,
}

/// A symbol whose parentheses are not yet closed.
#[derive(Clone, Copy)]
pub struct Frame {
    pub agent: u32,
    pub phase: Phase,
}

/// What comes next in a text, outside all parentheses: at first the profile or an equation; after the
/// profile a semicolon; and so on in an equation.
#[derive(Clone, Copy)]
pub enum Side {
    Beginning,
    Heading,
    Left,
    Equals(End),
    Right(End),
    Semicolon,
}

/// What has been read of a text.
#[derive(Drop)]
pub struct Builder<'a> {
    kinds: Vec<Kind>,
    links: Links,
    names: Names<'a>,
    stack: Vec<Frame>,
    side: Side,
    profile: Profile,
}

impl<'a> Builder<'a> {
    /// Nothing has been read, of a text of so many bytes.
    pub fn new(alloc: Global, bytes: usize) -> Result<Builder<'a>, AllocError>
        ensures { IfOk result (λ b. state_of b ≡ initial) }
    {
        Ok(Builder {
            kinds: Vec::new(alloc),
            links: Links::new(alloc),
            names: Names::new(alloc, bytes)?,
            stack: Vec::new(alloc),
            side: Side::Beginning,
            profile: Profile::Classic,
        })
    }

    /// A term with this root comes, if one may come here.
    #[inline(always)]
    #[tactic(auto, using(crate::proofs::Steps::top))]
    fn put(&mut self, root: End) -> Result<bool, AllocError>
        requires { length self.old.links < 2 ^ 32 }
        ensures { IfOk result (GoesOn (put (port_of_end root) (state_of self.old)) (state_of self.new)) }
    {
        match self.stack.pop() {
            None => match self.side {
                Side::Beginning | Side::Left => {
                    self.side = Side::Equals(root);
                    Ok(true)
                }
                Side::Right(left) => {
                    self.links.push(left, root)?;
                    self.side = Side::Semicolon;
                    Ok(true)
                }
                Side::Heading | Side::Equals(_) | Side::Semicolon => Ok(false),
            },
            Some(Frame { agent, phase }) => match phase {
                Phase::First => {
                    self.links.push(
                        End::Agent {
                            port: 1,
                            number: agent,
                        },
                        root,
                    )?;
                    self.stack.push_reserved(Frame {
                        agent,
                        phase: Phase::Comma,
                    });
                    Ok(true)
                }
                Phase::Second => {
                    self.links.push(
                        End::Agent {
                            port: 2,
                            number: agent,
                        },
                        root,
                    )?;
                    self.stack.push_reserved(Frame {
                        agent,
                        phase: Phase::Closing,
                    });
                    Ok(true)
                }
                Phase::Opening | Phase::Comma | Phase::Closing => Ok(false),
            },
        }
    }

    /// A mark comes, if it may come here.
    #[tactic(auto, using(crate::proofs::Steps::top))]
    fn mark(&mut self, piece: Lexeme<'_>) -> bool
        ensures { GoesOn (mark (token_of piece.entry) (state_of self.old)) (state_of self.new) result }
    {
        match self.stack.pop() {
            None => match (self.side, piece) {
                (Side::Equals(left), Lexeme::Equals) => {
                    self.side = Side::Right(left);
                    true
                }
                (Side::Heading | Side::Semicolon, Lexeme::Semicolon) => {
                    self.side = Side::Left;
                    true
                }
                _ => false,
            },
            Some(Frame { agent, phase }) => match (phase, piece) {
                (Phase::Opening, Lexeme::Opening) => {
                    self.stack.push_reserved(Frame {
                        agent,
                        phase: Phase::First,
                    });
                    true
                }
                (Phase::Comma, Lexeme::Comma) => {
                    self.stack.push_reserved(Frame {
                        agent,
                        phase: Phase::Second,
                    });
                    true
                }
                (Phase::Closing, Lexeme::Closing) => true,
                _ => false,
            },
        }
    }

    /// A symbol comes.
    #[tactic(auto, unfolding(crate::specs::Reading::advance, crate::specs::Reading::step, crate::specs::Reading::over))]
    fn take_symbol(&mut self, at: usize, kind: Kind) -> Result<(), TextFault>
        requires within { IsWithin (state_of self.old) at }
        requires early { at < MAX_TEXT }
        ensures { Gives (λ _. state_of self.new) result (advance (state_of self.old) at (symbol kind)) }
    {
        let number = self.kinds.len();
        let depth = self.stack.len();
        let agent = number as u32;
        self.kinds.push(kind)?;
        if !self.put(End::Agent {
            port: 0,
            number: agent,
        })? {
            return Err(TextFault::Refused(Refusal::Syntax(at)));
        }
        if number >= MAX_START_AGENTS {
            return Err(TextFault::Refused(Refusal::TooManyAgents(at)));
        }
        if depth >= MAX_NESTING {
            return Err(TextFault::Refused(Refusal::TooNested(at)));
        }
        match kind {
            Kind::Eps => {}
            Kind::Gamma | Kind::Delta => {
                self.stack.push(Frame {
                    agent,
                    phase: Phase::Opening,
                })?;
            }
        }
        Ok(())
    }

    /// A name comes.
    #[tactic(auto, unfolding(crate::specs::Reading::advance, crate::specs::Reading::step, crate::specs::Reading::over))]
    fn take_name(&mut self, at: usize, text: &'a [u8]) -> Result<(), TextFault>
        requires within { IsWithin (state_of self.old) at }
        requires early { at < MAX_TEXT }
        ensures { Gives (λ _. state_of self.new) result (advance (state_of self.old) at (name text.entry.now)) }
    {
        let occurrence = self.names.enter(text, at)?;
        if !self.put(End::Name(occurrence.number as u32))? {
            return Err(TextFault::Refused(Refusal::Syntax(at)));
        }
        if text.len() > MAX_NAME {
            return Err(TextFault::Refused(Refusal::NameTooLong(at)));
        }
        if occurrence.before >= 2 {
            return Err(TextFault::Refused(Refusal::Thrice(at)));
        }
        Ok(())
    }

    /// The profile comes.
    #[tactic(auto, unfolding(crate::specs::Reading::advance, crate::specs::Reading::step, crate::specs::Reading::over))]
    fn take_profile(&mut self, at: usize) -> Result<(), TextFault>
        ensures { Gives (λ _. state_of self.new) result (advance (state_of self.old) at profile) }
    {
        match (self.stack.is_empty(), self.side) {
            (true, Side::Beginning) => {
                self.side = Side::Heading;
                self.profile = Profile::Straight;
                Ok(())
            }
            _ => Err(TextFault::Refused(Refusal::Syntax(at))),
        }
    }

    /// A token comes, which begins at the byte `at`.
    #[tactic(auto, unfolding(crate::specs::Reading::advance, crate::specs::Reading::step, crate::specs::Reading::over))]
    pub fn take(&mut self, at: usize, piece: Lexeme<'a>) -> Result<(), TextFault>
        requires within { IsWithin (state_of self.old) at }
        requires early { at < MAX_TEXT }
        ensures { Gives (λ _. state_of self.new) result (advance (state_of self.old) at (token_of piece.entry)) }
    {
        match piece {
            Lexeme::Symbol(kind) => self.take_symbol(at, kind),
            Lexeme::Name(text) => self.take_name(at, text),
            Lexeme::Profile => self.take_profile(at),
            Lexeme::Bad => Err(TextFault::Refused(Refusal::BadByte(at))),
            Lexeme::Opening
            | Lexeme::Closing
            | Lexeme::Comma
            | Lexeme::Equals
            | Lexeme::Semicolon
            | Lexeme::Stray
            | Lexeme::Digit => {
                if self.mark(piece) {
                    Ok(())
                } else {
                    Err(TextFault::Refused(Refusal::Syntax(at)))
                }
            }
        }
    }

    /// The text ends.
    #[tactic(auto, unfolding(crate::specs::Reading::finish))]
    pub fn finish(self, alloc: Global, text: &[u8]) -> Result<Start, TextFault>
        requires read { run initial (items between 0 text.now) ≡ Ok (state_of self) }
        requires within { IsWithin (state_of self) (length text.now) }
        requires short { length text.now ≤ MAX_TEXT }
        ensures { Gives (λ s. s) result (finish (length text.now) (state_of self.entry)) }
    {
        if !self.stack.is_empty() || !self.side.is_at_rest() {
            return Err(TextFault::Refused(Refusal::Syntax(text.len())));
        }
        if let Some(first) = self.names.reserved() {
            return Err(TextFault::Refused(Refusal::ReservedFree(first)));
        }
        if self.names.free() > MAX_FREE_NAMES {
            return Err(TextFault::Refused(Refusal::TooManyFree));
        }
        let names = self.names.texts(alloc)?;
        let links = self.links.into_start();
        links.lawful();
        Ok(Start::make(alloc, self.kinds, links, names, self.profile)?)
    }
}

impl Side {
    /// Whether an equation may begin, or the text end.
    fn is_at_rest(&self) -> bool
        ensures { result ≡ is_at_rest [] (side_of self.now) }
    {
        matches!(self, Side::Beginning | Side::Left)
    }
}
