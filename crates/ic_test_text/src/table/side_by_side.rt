ghost use Rattle.std.specs.Prelude.{◌≡◌, IfOk, OnOk};
ghost use Rattle.ic_link.specs.Links.{makers_of};
ghost use Rattle.ic_test_text.specs.Stores.{AreSame};

use crate::link::{has_places, path_places};
use crate::table::paths::{Row, event, link};
use ic_link::{LinkRows, LinkStore, has_room};
use ic_name::{EventId, Link, LinkId, MakerId, Spot};
use ic_table::PortTable;
use std::alloc::{AllocError, Global};
use std::test::Fail;

/// Both stores, and the ids of the links that were put in.
#[derive(Drop)]
pub(crate) struct Both {
    pub(crate) table: PortTable,
    pub(crate) rows: LinkRows,
    ids: Vec<LinkId>,
}

impl Both {
    /// No links.
    pub(crate) fn empty(alloc: Global) -> Both
        ensures { AreSame result.table.links result.rows result.ids.items }
    {
        Both {
            table: PortTable::empty(alloc),
            rows: LinkRows::empty(alloc),
            ids: Vec::new(alloc),
        }
    }

    /// Puts a link with a fresh id into both stores. An error comes if it finds no room, or memory runs out.
    pub(crate) fn put(&mut self, link: Link) -> Result<(), AllocError>
        requires { AreSame self.old.table.links self.old.rows self.old.ids.items }
        ensures { OnOk result (AreSame self.new.table.links self.new.rows self.new.ids.items) }
    {
        if self.ids.contains(&link.id) || !has_room(&self.table, &link) {
            return Err(AllocError);
        }
        self.ids.push(link.id)?;
        self.table.add(link)?;
        self.rows.add(link)?;
        Ok(())
    }

    /// Takes the links of an event out of both stores.
    pub(crate) fn take_of(&mut self, event: EventId)
        requires { AreSame self.old.table.links self.old.rows self.old.ids.items }
        ensures { AreSame self.new.table.links self.new.rows self.new.ids.items }
    {
        self.table.take_of(event);
        self.rows.take_of(event);
    }

    /// Takes the links of all events out of both stores.
    pub(crate) fn take_all(&mut self, alloc: Global) -> Result<(), AllocError>
        requires { AreSame self.old.table.links self.old.rows self.old.ids.items }
        ensures { OnOk result (AreSame self.new.table.links self.new.rows self.new.ids.items) }
    {
        let events = makers(alloc, self.ids.as_slice())?;
        self.table.take_all(events.as_slice());
        self.rows.take_all(events.as_slice());
        Ok(())
    }
}

/// The events that made links of these ids.
fn makers(alloc: Global, ids: &[LinkId]) -> Result<Vec<EventId>, AllocError>
    ensures { IfOk result (λ events. events.items ≡ makers_of ids.now) }
{
    let mut events = Vec::new(alloc);
    for id in ids {
        if let MakerId::Event(event) = id.maker {
            events.push(event)?;
        }
    }
    Ok(events)
}

/// Whether both stores have the same path at a name.
fn have_same_path(alloc: Global, table: &PortTable, rows: &LinkRows, name: u32) -> bool {
    match path_places(alloc, rows, name) {
        Some(places) => has_places(alloc, table, name, places.as_slice()),
        None => false,
    }
}

/// Whether both stores give the same answers of a name.
fn agree_at(alloc: Global, table: &PortTable, rows: &LinkRows, name: u32) -> bool {
    let spot = Spot::Name(name);
    let degree = table.degree(spot);
    degree == rows.degree(spot)
        && table.far(spot) == rows.far(spot)
        && (degree != 1 || have_same_path(alloc, table, rows, name))
}

/// Whether both stores give the same answers.
pub(crate) fn agree(alloc: Global, table: &PortTable, rows: &LinkRows) -> bool {
    for name in 0..8 {
        if !agree_at(alloc, table, rows, name) {
            return false;
        }
    }
    table.rings() == rows.rings()
}

/// The links that are put in one after the other, and the event whose links then go.
const ROUNDS: [([Row; 2], u32); 6] = [
    ([(1, 0, 0, 1), (1, 1, 2, 3)], 9),
    ([(2, 2, 1, 2), (2, 3, 5, 5)], 9),
    ([(3, 4, 3, 0), (3, 5, 4, 6)], 1),
    ([(4, 6, 0, 4), (4, 7, 2, 6)], 2),
    ([(5, 8, 1, 1), (5, 9, 7, 2)], 3),
    ([(6, 10, 0, 6), (6, 11, 3, 5)], 4),
];

/// Whether both stores give the same answers each time.
fn always_agree(alloc: Global, both: &mut Both) -> Result<bool, AllocError>
    requires { AreSame both.old.table.links both.old.rows both.old.ids.items }
{
    for (links, taken) in &ROUNDS {
        for added in links {
            both.put(link(*added))?;
            if !agree(alloc, &both.table, &both.rows) {
                return Ok(false);
            }
        }
        both.take_of(event(*taken));
        if !agree(alloc, &both.table, &both.rows) {
            return Ok(false);
        }
    }
    Ok(true)
}

#[test]
fn a_table_answers_as_rows_do(rt: HostRuntime) -> Result<(), Fail> {
    let mut both = Both::empty(rt.alloc());
    assert!(rt; always_agree(rt.alloc(), &mut both)?);
    Ok(())
}
