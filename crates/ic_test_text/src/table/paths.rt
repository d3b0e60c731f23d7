ghost use Rattle.std.specs.Prelude.{◌≡◌};
ghost use Rattle.ic_name.specs.declared.ids.MakerId.TheVariants.{Event as AnEvent};

use crate::link::{has_places, path_places};
use ic_link::{Far, LinkStore, has_room};
use ic_name::{EventId, Link, LinkId, MakerId, Spot};
use ic_table::PortTable;
use std::alloc::Global;

/// The event that stands in a line of a history.
pub(crate) fn event(line: u32) -> EventId
    ensures { result ≡ record { slot = line; line = line } }
{
    EventId { slot: line, line }
}

/// A link of an event, by its line, the link's place, and the names at its ends.
pub(crate) type Row = (u32, u32, u32, u32);

/// The link of a row.
pub(crate) fn link(row: Row) -> Link
    ensures { result.id.maker ≡ AnEvent (record { slot = row.0; line = row.0 }) }
{
    let (line, place, a, b) = row;
    Link {
        id: LinkId {
            maker: MakerId::Event(event(line)),
            place,
        },
        a: Spot::Name(a),
        b: Spot::Name(b),
    }
}

/// Puts in a link as the only one of its event. It is `false` if it finds no room, or memory runs out.
pub(crate) fn put(table: &mut PortTable, row: Row) -> bool {
    let added = link(row);
    table.take_of(event(row.0));
    if !has_room(table, &added) {
        return false;
    }
    table.add(added).is_ok()
}

/// Puts in these links. It is `false` if one can't be put in.
fn put_all(table: &mut PortTable, rows: &[Row]) -> bool {
    for row in rows {
        if !put(table, *row) {
            return false;
        }
    }
    true
}

/// Whether a table answers so of these names, and has so many rings.
fn answers(table: &PortTable, fars: &[(u32, Far)], rings: u64) -> bool {
    for (name, far) in fars {
        if table.far(Spot::Name(*name)) != *far {
            return false;
        }
    }
    table.rings() == rings
}

/// Two links that make a path.
const TWO_LINKS: [Row; 2] = [(1, 0, 4, 5), (2, 1, 6, 5)];

/// What a table of them answers of each name.
const FARS: [(u32, Far); 4] = [
    (4, Far::End(Spot::Name(6))),
    (5, Far::Joint),
    (6, Far::End(Spot::Name(4))),
    (7, Far::Bare),
];

#[test]
fn two_links_make_a_path(rt: HostRuntime) {
    let mut table = PortTable::empty(rt.alloc());
    assert!(rt; put_all(&mut table, &TWO_LINKS) && answers(&table, &FARS, 0));
}

/// Whether the path of two links has them in order, from either end.
fn is_in_order(alloc: Global, table: &PortTable) -> bool {
    has_places(alloc, table, 4, &[0, 1]) && has_places(alloc, table, 6, &[1, 0])
}

#[test]
fn a_path_has_its_links_in_order(rt: HostRuntime) {
    let mut table = PortTable::empty(rt.alloc());
    assert!(rt; put_all(&mut table, &TWO_LINKS) && is_in_order(rt.alloc(), &table));
}

/// Puts in a path of a thousand links, in turn from name 0 to name 1,000. Whether each touches few records.
fn put_long_path(table: &mut PortTable) -> bool {
    for i in 0..1_000 {
        if !put(table, (i, i, i, i + 1)) || table.touched() > 4 {
            return false;
        }
    }
    true
}

/// The number of links of that path, if it leads to its end.
fn long_path_len(alloc: Global, table: &PortTable) -> Option<usize> {
    if table.far(Spot::Name(0)) != Far::End(Spot::Name(1_000)) {
        return None;
    }
    Some(path_places(alloc, table, 0)?.len())
}

#[test]
fn a_long_path_touches_few_records(rt: HostRuntime) {
    let mut table = PortTable::empty(rt.alloc());
    assert!(rt; put_long_path(&mut table));
    assert_eq!(rt; long_path_len(rt.alloc(), &table), Some(1_000));
}

/// The far ends of the names at the ends of the two halves of the long path.
const HALVES: [(u32, Far); 4] = [
    (0, Far::End(Spot::Name(500))),
    (500, Far::End(Spot::Name(0))),
    (501, Far::End(Spot::Name(1_000))),
    (1_000, Far::End(Spot::Name(501))),
];

/// Whether the long path is split in its middle.
fn is_split(table: &mut PortTable) -> bool {
    table.take_of(event(500));
    table.touched() == 4 && answers(table, &HALVES, 0)
}

#[test]
fn a_long_path_is_split_in_its_middle(rt: HostRuntime) {
    let mut table = PortTable::empty(rt.alloc());
    assert!(rt; put_long_path(&mut table) && is_split(&mut table));
}

/// Three links that make a ring.
const RING: [Row; 3] = [(1, 0, 1, 2), (2, 0, 2, 3), (3, 0, 3, 1)];

/// What a table answers once the second of them is taken out.
const OPENED: [(u32, Far); 2] = [(2, Far::End(Spot::Name(3))), (3, Far::End(Spot::Name(2)))];

/// Whether the ring is closed, and opened when its second link is taken out.
fn is_opened(table: &mut PortTable) -> bool {
    let closed = answers(table, &[(1, Far::Joint)], 1);
    table.take_of(event(2));
    closed && answers(table, &OPENED, 0)
}

#[test]
fn a_ring_is_closed_and_opened(rt: HostRuntime) {
    let mut table = PortTable::empty(rt.alloc());
    assert!(rt; put_all(&mut table, &RING) && is_opened(&mut table));
}

/// Opens a ring at the link of a row, and closes it again. Whether the table said so.
fn reopened(table: &mut PortTable, row: Row) -> bool {
    let (line, place, a, b) = row;
    table.take_of(event(line));
    let opened = table.rings() == 0 && table.touched() <= 4;
    let far = table.far(Spot::Name(a));
    put(table, row) && opened && far == Far::End(Spot::Name(b)) && table.rings() == 1
}

/// Puts in a ring of a thousand links.
fn put_long_ring(table: &mut PortTable) -> bool {
    for i in 0..1_000 {
        if !put(table, (i, 0, i, (i + 1) % 1_000)) {
            return false;
        }
    }
    table.rings() == 1
}

/// Whether that ring is opened and closed again at each of 200 of its links.
fn is_reopened(table: &mut PortTable) -> bool {
    for i in 0..200 {
        let line = 7 * i % 1_000;
        if !reopened(table, (line, 0, line, (line + 1) % 1_000)) {
            return false;
        }
    }
    true
}

#[test]
fn a_long_ring_is_opened_anywhere(rt: HostRuntime) {
    let mut table = PortTable::empty(rt.alloc());
    assert!(rt; put_long_ring(&mut table));
    assert!(rt; is_reopened(&mut table));
}

/// A link from name 7 to itself.
const SELF_LINK: [Row; 1] = [(1, 0, 7, 7)];

/// Whether it is a ring, for which one record was touched, in which both its ends are.
fn is_a_ring(table: &PortTable) -> bool {
    table.touched() == 1
        && table.degree(Spot::Name(7)) == 2
        && answers(table, &[(7, Far::Joint)], 1)
}

#[test]
fn a_self_link_is_a_ring(rt: HostRuntime) {
    let mut table = PortTable::empty(rt.alloc());
    assert!(rt; put_all(&mut table, &SELF_LINK) && is_a_ring(&table));
}

/// Whether another link finds room at name 7 only when the self link is taken out.
fn gives_room_back(table: &mut PortTable) -> bool {
    let other = link((2, 0, 7, 8));
    let before = has_room(table, &other);
    table.take_of(event(1));
    !before && has_room(table, &other) && answers(table, &[(7, Far::Bare)], 0)
}

#[test]
fn a_self_link_gives_its_room_back(rt: HostRuntime) {
    let mut table = PortTable::empty(rt.alloc());
    assert!(rt; put_all(&mut table, &SELF_LINK) && gives_room_back(&mut table));
}

/// Whether these are the ids of the links from a loose name to its far end.
fn has_ids(table: &PortTable, from: u32, ids: &[LinkId]) -> bool {
    let from = Spot::Name(from);
    if table.degree(from) != 1 {
        return false;
    }
    match table.path(from) {
        Ok(found) => found.as_slice() == ids,
        Err(_) => false,
    }
}

/// Whether the id of the link of this row is found, but not another one, and none once the link is taken out.
fn has_its_id(table: &mut PortTable, row: Row) -> bool {
    let (line, place, a, b) = row;
    let found = has_ids(table, a, &[link(row).id])
        && !has_ids(table, a, &[link((line, place.wrapping_add(1), a, b)).id]);
    table.take_of(event(line));
    found && !has_ids(table, a, &[link(row).id]) && table.degree(Spot::Name(a)) == 0
}

#[test]
fn ids_are_found(rt: HostRuntime) {
    let row = (1, 2, 4, 5);
    let mut table = PortTable::empty(rt.alloc());
    assert!(rt; put(&mut table, row) && has_its_id(&mut table, row));
}
