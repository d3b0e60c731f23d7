ghost use Rattle.std.specs.Prelude.{◌≡◌, ◌+◌, ◌<◌, ◌≤◌, ◌++◌, ◌∷◌, [], length, map, IfOk, OnOk, OnErr};
ghost use Rattle.ic_path.specs.Orders.{IsOnce};
ghost use Rattle.ic_roster.specs.KeptEvents.{lone};
ghost use Rattle.ic_roster.specs.RecordChanges.{Takes};

use crate::events::NewEvent;
use crate::interaction::Interaction;
use ic_name::Kind;
use ic_names::NameId;
use smallvec::SmallVec;
use std::alloc::{AllocError, Global};
use std::marker::Model;
use std::mem::size_of;

/// What is kept of a standing event under its slot, in 72 bytes. The slots are those of its children, then those of its direct
/// causes, then those of its dependents, which are the events whose direct cause it is. The serial number of a child is one more
/// than the event's line, and the line of a cause or a dependent is that of the record in its slot.
#[derive(Drop)]
pub(crate) struct EventRecord {
    lead: NameId,
    other: NameId,
    line: u32,
    rank: u32,
    causes: u32,
    lead_kind: Kind,
    other_kind: Kind,
    born: u8,
    slots: SmallVec<u32, 8>,
}

const _: () = prove!(size_of::<EventRecord>() == 72);

impl Model for EventRecord {
    ghost use Rattle.std.specs.Prelude.{◌+◌, ◌-◌, ◌≤◌, drop, length, take};
    ghost use Rattle.ic_roster.specs.KeptEvents.{KeptEvent};

    ghost Value = { KeptEvent };

    ghost view = { λ r. record {
      interaction = record { lead = r.lead; other = r.other; lead_kind = r.lead_kind; other_kind = r.other_kind };
      line = r.line;
      rank = r.rank;
      born = take r.born r.slots.items;
      causes = take r.causes (drop r.born r.slots.items);
      dependents = drop (r.born + r.causes) r.slots.items;
      spare = r.slots.capacity - length r.slots.items;
    } };

    ghost invariant = { λ r. r.born + r.causes ≤ length r.slots.items };
}

impl EventRecord {
    /// The record of an event of this line that has no dependents yet. Its causes are of other lines, and no two of them are of
    /// one line, so there are fewer causes than lines. It is an error if memory runs out.
    pub fn new(alloc: Global, line: u32, event: &NewEvent<'_>) -> Result<EventRecord, AllocError>
        requires four { length event.now.born.now ≤ 4 }
        requires lines { IsOnce (line ∷ map (λ d. d.line) event.now.causes.now) }
        ensures interaction { IfOk result (λ r. r.interaction ≡ event.now.interaction) }
        ensures line { IfOk result (λ r. r.line ≡ line) }
        ensures rank { IfOk result (λ r. r.rank ≡ event.now.rank) }
        ensures born { IfOk result (λ r. r.born ≡ map (λ a. a.slot) event.now.born.now) }
        ensures causes { IfOk result (λ r. r.causes ≡ map (λ d. d.slot) event.now.causes.now) }
        ensures none { IfOk result (λ r. r.dependents ≡ []) }
    {
        let born = event.born.len() as u8;
        let mut slots = SmallVec::new(alloc);
        slots.reserve(event.born.len() + event.causes.len())?;
        for child in event.born {
            slots.push_reserved(child.slot);
        }
        for cause in event.causes {
            // A line fits in 32 bits. No two causes are of one line, so the number of causes fits, too.
            prove!(cause.line <= u32::MAX);
            slots.push_reserved(cause.slot);
        }
        let causes = event.causes.len() as u32;
        let Interaction {
            lead,
            other,
            lead_kind,
            other_kind,
        } = event.interaction;
        Ok(EventRecord {
            lead,
            other,
            line,
            rank: event.rank,
            causes,
            lead_kind,
            other_kind,
            born,
            slots,
        })
    }

    /// The places of the names of its two agents, and their kinds.
    #[inline]
    pub fn interaction(&self) -> Interaction
        ensures { result ≡ self.now.interaction }
    {
        Interaction {
            lead: self.lead,
            other: self.other,
            lead_kind: self.lead_kind,
            other_kind: self.other_kind,
        }
    }

    /// The place of its lead's name.
    #[inline]
    pub fn lead(&self) -> NameId
        ensures { result ≡ self.now.interaction.lead }
    {
        self.lead
    }

    /// The line that it was fired in.
    #[inline]
    pub fn line(&self) -> u32
        ensures { result ≡ self.now.line }
    {
        self.line
    }

    /// Its rank.
    #[inline]
    pub fn rank(&self) -> u32
        ensures { result ≡ self.now.rank }
    {
        self.rank
    }

    /// The slots of its children.
    #[inline]
    pub fn born(&self) -> &[u32]
        ensures { result.now ≡ self.now.born }
    {
        &self.slots.as_slice()[..self.born as usize]
    }

    /// The slots of its direct causes.
    #[inline]
    pub fn causes(&self) -> &[u32]
        ensures { result.now ≡ self.now.causes }
    {
        let start = self.born as usize;
        &self.slots.as_slice()[start..start + self.causes as usize]
    }

    /// The slots of its dependents.
    #[inline]
    pub fn dependents(&self) -> &[u32]
        ensures { result.now ≡ self.now.dependents }
    {
        &self.slots.as_slice()[self.born as usize + self.causes as usize..]
    }

    /// Makes room for a dependent more. At an error nothing changes but the room.
    pub fn reserve_dependent(&mut self) -> Result<(), AllocError>
        ensures same { lone self.new ≡ lone self.old }
        ensures dependents { self.new.dependents ≡ self.old.dependents }
        ensures kept { 0 < self.old.spare → 0 < self.new.spare }
        ensures room { OnOk result (0 < self.new.spare) }
    {
        self.slots.reserve(1)
    }

    /// One dependent more, for which there is room. It takes no memory.
    pub fn push_dependent(&mut self, slot: u32)
        requires { 0 < self.old.spare }
        ensures same { lone self.new ≡ lone self.old }
        ensures dependents { self.new.dependents ≡ self.old.dependents ++ slot ∷ [] }
    {
        self.slots.push_reserved(slot);
    }

    /// A dependent goes, if it is there. It takes no memory.
    pub fn remove_dependent(&mut self, slot: u32)
        ensures same { lone self.new ≡ lone self.old }
        ensures dependents { Takes slot self.old.dependents self.new.dependents }
    {
        let first = self.born as usize + self.causes as usize;
        let place = self
            .dependents()
            .iter()
            .position(|dependent| slot == *dependent);
        if let Some(at) = place {
            let _ = self.slots.remove(first + at);
        }
    }
}
