ghost use Rattle.std.specs.Prelude.{◌≡◌, ◌↔◌, List, [], IsTrue, IfOk, IfSome, IfNone};
ghost use Rattle.ic_name.specs.Events.{Event as AnEvent};
ghost use Rattle.ic_name.specs.Names.{Name};
ghost use Rattle.ic_roster.specs.Rosters.{event_in, IsNamed};
ghost use Rattle.ic_history.specs.Kept.{event_kept, line_of, IsPlaced};
ghost use Rattle.ic_history.specs.Noted.{Fired, Limited, line_in, IsLineNamed};
ghost use Rattle.ic_history.specs.Notes.{noted_of, IsOfAPair};

use crate::limit::Limit;
use crate::notes::PairNote;
use crate::now_and_then::NowAndThen;
use crate::proposal::Proposal;
use ic_name::{Call, Event, Kind, Line, Reply};
use ic_names::{NameId, NameTable};
use ic_roster::{Interaction, Roster};
use std::alloc::AllocError;
use std::mem::size_of;

/// A line as the history keeps it: a call with its reply. The event of an active pair is kept by its kinds and the places of
/// its names, each by themselves, so that the kinds lie beside the variant's tag.
#[derive(Clone, Copy)]
pub enum KeptLine {
    /// The event of an active pair was fired.
    Fired(Kinds, Places),
    /// Firing the event of an active pair met a limit.
    Limited(Limit, Kinds, Places),
    /// The event of a proposal wasn't active: the proposal's place in the history's list of these.
    NotActive(u32),
    /// The firing in this line was undone.
    Undone(u32),
    /// No event stood that was fired in this line.
    NotStanding(u32),
    /// The event that was fired in the line was held by one that was fired in another.
    Held { line: u32, by: u32 },
}

// A million lines take 12 megabytes.
const _: () = prove!(size_of::<KeptLine>() == 12);

/// The kinds of an event's lead and of its other agent.
#[derive(Clone, Copy, Debug, PartialEq, Eq)]
pub struct Kinds {
    lead: Kind,
    other: Kind,
}

/// The places of their names.
#[derive(Clone, Copy, Debug, PartialEq, Eq)]
pub struct Places {
    pub(crate) lead: NameId,
    other: NameId,
}

impl KeptLine {
    /// The event of an active pair was fired.
    pub fn fired(event: Interaction) -> KeptLine
        ensures line { line_of [] result ≡ Fired event }
        ensures placed { IsPlaced [] result }
    {
        KeptLine::Fired(Kinds::of(event), Places::of(event))
    }

    /// Firing the event of an active pair met a limit.
    pub fn limited(limit: Limit, event: Interaction) -> KeptLine
        ensures line { line_of [] result ≡ Limited limit event }
        ensures placed { IsPlaced [] result }
    {
        KeptLine::Limited(limit, Kinds::of(event), Places::of(event))
    }

    /// The reply.
    pub(crate) fn reply(&self) -> Reply
        ensures { (ns : List Name) (inactive : List AnEvent) → result ≡ (line_in ns (line_of inactive self.now)).reply }
    {
        match self {
            KeptLine::Fired(..) => Reply::Fired,
            KeptLine::Limited(limit, ..) => limit.reply(),
            KeptLine::NotActive(_) => Reply::NotActive,
            KeptLine::Undone(_) => Reply::Undone,
            KeptLine::NotStanding(_) => Reply::NotStanding,
            KeptLine::Held { by, .. } => Reply::Held(*by),
        }
    }

    /// The note of it; `None` where it isn't a call to fire an active pair.
    pub(crate) fn note(&self) -> Option<PairNote>
        ensures noted { IfSome result (λ note. (inactive : List AnEvent) → noted_of note ≡ line_of inactive self.now) }
        ensures none { IfNone result ((inactive : List AnEvent) → ¬ (IsOfAPair (line_of inactive self.now))) }
    {
        match self {
            KeptLine::Fired(kinds, places) => Some(PairNote {
                limit: None,
                kinds: *kinds,
                places: *places,
            }),
            KeptLine::Limited(limit, kinds, places) => Some(PairNote {
                limit: Some(*limit),
                kinds: *kinds,
                places: *places,
            }),
            _ => None,
        }
    }

    /// Whether its call is this one, by a table with the names. It takes no memory.
    pub(crate) fn has_call(&self, inactive: &[Proposal], names: &NameTable, call: &Call) -> bool
        requires placed { IsPlaced inactive.now self.now }
        requires named { IsLineNamed names.now (line_of inactive.now self.now) }
        ensures { IsTrue result ↔ ((line_in names.now (line_of inactive.now self.now)).call ≡ call.now) }
    {
        match (self, call) {
            (
                KeptLine::Fired(kinds, places) | KeptLine::Limited(_, kinds, places),
                Call::Fire(event),
            ) => is_event(names, interaction(*kinds, *places), event),
            (KeptLine::NotActive(place), Call::Fire(event)) => {
                inactive[*place as usize].event().is(event)
            }
            (
                KeptLine::Undone(line) | KeptLine::NotStanding(line) | KeptLine::Held { line, .. },
                Call::Undo(another),
            ) => line == another,
            _ => false,
        }
    }

    /// Whether it tells the line that another one told then, each beside its list of proposals. It takes no memory.
    pub(crate) fn is_same(
        &self,
        inactive: &[Proposal],
        names: &NowAndThen<'_>,
        then: &KeptLine,
        inactive_then: &[Proposal],
    ) -> bool
        requires placed { IsPlaced inactive.now self.now }
        requires placed_then { IsPlaced inactive_then.now then.now }
        requires named { IsLineNamed names.now.table.now (line_of inactive.now self.now) }
        requires named_then { IsLineNamed names.now.known.now (line_of inactive_then.now then.now) }
        ensures { IsTrue result ↔ (line_in names.now.table.now (line_of inactive.now self.now) ≡ line_in names.now.known.now (line_of inactive_then.now then.now)) }
    {
        match (self, then) {
            (KeptLine::Fired(kinds, places), KeptLine::Fired(kinds_then, places_then)) =>
                names.is_event(
                    interaction(*kinds, *places),
                    interaction(*kinds_then, *places_then),
                ),
            (
                KeptLine::Limited(limit, kinds, places),
                KeptLine::Limited(limit_then, kinds_then, places_then),
            ) => {
                limit == limit_then
                    && names.is_event(
                        interaction(*kinds, *places),
                        interaction(*kinds_then, *places_then),
                    )
            }
            (KeptLine::NotActive(place), KeptLine::NotActive(place_then)) => {
                let event = inactive[*place as usize].event();
                event.is(inactive_then[*place_then as usize].event())
            }
            (KeptLine::Undone(line), KeptLine::Undone(line_then))
            | (KeptLine::NotStanding(line), KeptLine::NotStanding(line_then)) => line == line_then,
            (
                KeptLine::Held { line, by },
                KeptLine::Held {
                    line: line_then,
                    by: by_then,
                },
            ) => line == line_then && by == by_then,
            _ => false,
        }
    }

    /// The call with the names of a roster. At an error memory ran out.
    fn call(&self, inactive: &[Proposal], roster: &Roster) -> Result<Call, AllocError>
        requires placed { IsPlaced inactive.now self.now }
        requires named { IsLineNamed roster.now.names (line_of inactive.now self.now) }
        ensures { IfOk result (λ call. call ≡ (line_in roster.now.names (line_of inactive.now self.now)).call) }
    {
        match self {
            KeptLine::Fired(kinds, places) | KeptLine::Limited(_, kinds, places) => {
                Ok(Call::Fire(roster.read(interaction(*kinds, *places))?))
            }
            KeptLine::NotActive(place) => {
                Ok(Call::Fire(inactive[*place as usize].event().copy()?))
            }
            KeptLine::Undone(line) | KeptLine::NotStanding(line) | KeptLine::Held { line, .. } => {
                Ok(Call::Undo(*line))
            }
        }
    }

    /// The line with the names of a roster. At an error memory ran out.
    pub(crate) fn read(&self, inactive: &[Proposal], roster: &Roster) -> Result<Line, AllocError>
        requires placed { IsPlaced inactive.now self.now }
        requires named { IsLineNamed roster.now.names (line_of inactive.now self.now) }
        ensures { IfOk result (λ line. line ≡ line_in roster.now.names (line_of inactive.now self.now)) }
    {
        Ok(Line {
            call: self.call(inactive, roster)?,
            reply: self.reply(),
        })
    }
}

impl Kinds {
    /// The kinds of an event.
    fn of(event: Interaction) -> Kinds
        ensures { result ≡ record { lead = event.lead_kind; other = event.other_kind } }
    {
        Kinds {
            lead: event.lead_kind,
            other: event.other_kind,
        }
    }
}

impl Places {
    /// The places of its names.
    fn of(event: Interaction) -> Places
        ensures { result ≡ record { lead = event.lead; other = event.other } }
    {
        Places {
            lead: event.lead,
            other: event.other,
        }
    }
}

/// The event of these kinds and places.
fn interaction(kinds: Kinds, places: Places) -> Interaction
    ensures { result ≡ event_kept kinds places }
{
    Interaction {
        lead: places.lead,
        other: places.other,
        lead_kind: kinds.lead,
        other_kind: kinds.other,
    }
}

/// Whether the event of these names is this one. It takes no memory.
fn is_event(names: &NameTable, interaction: Interaction, event: &Event) -> bool
    requires { IsNamed names.now interaction }
    ensures { IsTrue result ↔ (event_in names.now interaction ≡ event.now) }
{
    names.is(interaction.lead, event.lead())
        && interaction.lead_kind == event.lead_kind()
        && names.is(interaction.other, event.other())
        && interaction.other_kind == event.other_kind()
}
