ghost use Rattle.std.specs.Prelude.{◌≡◌, ◌<◌, All, length, map, IfOk};
ghost use Rattle.ic_name.specs.declared.ids.EventId.{EventId as AnEventId};
ghost use Rattle.ic_path.specs.Orders.{IsIn, IsOnce};
ghost use Rattle.ic_set.specs.Orders.{AreInOrder, IsAny, IsCauseOf, DependsOn};
ghost use Rattle.ic_set.specs.Placed.{keyed_cmp, place, IsKeyed, IsPlaced, ArePlaced};
ghost use Rattle.ic_set.specs.Removal.{Stands};

use crate::bare::BareSet;
use crate::by_rank::put_in_order;
use ic_link::LinkStore;
use ic_name::EventId;
use ic_names::{NameId, NameKey, NameTable};
use std::alloc::{AllocError, Global};
use std::cmp::Ordering;
use std::mem::size_of;

/// A standing event that is put in order, with the place and the key of its lead's name. Its other agent is looked up by its
/// id where it is needed.
#[derive(Clone, Copy)]
pub(crate) struct Placed {
    pub id: EventId,
    pub lead: NameId,
    pub rank: u32,
    pub key: NameKey,
}

const _: () = prove!(size_of::<Placed>() == 24);

impl<L: LinkStore> BareSet<L> {
    /// All standing events, in canonical order.
    pub fn standing(&self) -> Result<Vec<EventId>, AllocError>
        ensures { IfOk result (λ ids. AreInOrder self.now.set IsAny ids.items) }
    {
        ids_of(self.alloc, &self.all_placed()?)
    }

    /// The direct causes of a standing event, in canonical order.
    pub fn causes(&self, id: EventId) -> Result<Vec<EventId>, AllocError>
        requires { Stands self.now.set id }
        ensures { IfOk result (λ ids. AreInOrder self.now.set (IsCauseOf self.now.set id) ids.items) }
    {
        let ids = self.roster.event_causes(id).to_vec(self.alloc)?;
        ids_of(self.alloc, &self.in_order(&ids)?)
    }

    /// The direct dependents of a standing event, in canonical order.
    pub fn dependents(&self, id: EventId) -> Result<Vec<EventId>, AllocError>
        requires { Stands self.now.set id }
        ensures { IfOk result (λ ids. AreInOrder self.now.set (DependsOn self.now.set id) ids.items) }
    {
        let ids = self.roster.event_dependents(id).to_vec(self.alloc)?;
        ids_of(self.alloc, &self.in_order(&ids)?)
    }

    /// These standing events, in canonical order.
    pub fn ordered(&self, ids: &[EventId]) -> Result<Vec<EventId>, AllocError>
        requires once { IsOnce ids.now }
        requires standing { (d : AnEventId) → IsIn d ids.now → Stands self.now.set d }
        ensures { IfOk result (λ ordered. AreInOrder self.now.set (λ x. IsIn x.id ids.now) ordered.items) }
    {
        ids_of(self.alloc, &self.in_order(ids)?)
    }

    /// All standing events, in canonical order, with their ids and ranks.
    pub(crate) fn all_placed(&self) -> Result<Vec<Placed>, AllocError>
        ensures { IfOk result (λ placed. ArePlaced self.now IsAny placed.items) }
    {
        self.in_order(&self.roster.event_ids(self.alloc)?)
    }

    /// The standing events under these ids, in canonical order.
    fn in_order(&self, ids: &[EventId]) -> Result<Vec<Placed>, AllocError>
        requires once { IsOnce ids.now }
        requires standing { (d : AnEventId) → IsIn d ids.now → Stands self.now.set d }
        ensures { IfOk result (λ placed. ArePlaced self.now (λ x. IsIn x.id ids.now) placed.items) }
    {
        self.lawful();
        let mut placed = self.placed(ids)?;
        put_in_order(self.alloc, self.roster.names(), &mut placed)?;
        Ok(placed)
    }

    /// The standing events under these ids, in the order of the ids.
    fn placed(&self, ids: &[EventId]) -> Result<Vec<Placed>, AllocError>
        requires { (d : AnEventId) → IsIn d ids.now → Stands self.now.set d }
        ensures under { IfOk result (λ placed. map (λ p. p.id) placed.items ≡ ids.now) }
        ensures shown { IfOk result (λ placed. All (IsPlaced self.now) placed.items) }
    {
        let names = self.roster.names();
        let mut placed = Vec::with_capacity(self.alloc, ids.len())?;
        for id in ids {
            let Some(entry) = self.roster.event(*id) else {
                unreachable!()
            };
            placed.push(placed_event(names, *id, entry.interaction.lead, entry.rank))?;
        }
        Ok(placed)
    }
}

/// A standing event with what it is put in order by. It takes no memory.
pub(crate) fn placed_event(names: &NameTable, id: EventId, lead: NameId, rank: u32) -> Placed
    ensures id { result.id ≡ id }
    ensures lead { result.lead ≡ lead }
    ensures rank { result.rank ≡ rank }
    ensures keyed { lead.place < length names.now → IsKeyed names.now result }
{
    Placed {
        id,
        lead,
        rank,
        key: names.key(lead),
    }
}

/// The canonical order of two standing events: by rank, then lead. No two have the same lead, so that others are not asked.
/// The table is asked only if ranks and keys are the same. It takes no memory.
pub(crate) fn canonical_order(names: &NameTable, a: &Placed, b: &Placed) -> Ordering
    ensures { result ≡ keyed_cmp (place names.now a.now) (place names.now b.now) }
{
    a.rank
        .cmp(&b.rank)
        .then_with(|| a.key.number().cmp(&b.key.number()))
        .then_with(|| names.cmp(a.lead, b.lead))
}

/// The ids of these events.
fn ids_of(alloc: Global, placed: &[Placed]) -> Result<Vec<EventId>, AllocError>
    ensures { IfOk result (λ ids. ids.items ≡ map (λ p. p.id) placed.now) }
{
    let mut ids = Vec::with_capacity(alloc, placed.len())?;
    for event in placed {
        ids.push(event.id)?;
    }
    Ok(ids)
}
