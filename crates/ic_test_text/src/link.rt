ghost use Rattle.std.specs.Prelude.{◌≡◌, ◌≢◌, ◌∷◌, OnOk};
ghost use Rattle.ic_name.specs.declared.ids.Link.{Link as ALink};
ghost use Rattle.ic_name.specs.declared.ids.Spot.TheVariants.{Name as AName};
ghost use Rattle.ic_path.specs.Orders.{Alike, IsIn};

use ic_link::{
    Far, LinkRows, LinkStore, ends_at, has_room, is_of, one_if_same, other_end, there_and_back,
};
use ic_name::{EventId, Link, LinkId, MakerId, Spot};
use std::alloc::{AllocError, Global};
use std::process::Abort;
use std::test::Fail;

const EVENT: EventId = EventId { slot: 3, line: 9 };

const BY_EVENT: MakerId = MakerId::Event(EVENT);

/// A link between two names.
fn link(maker: MakerId, place: u32, a: u32, b: u32) -> Link
    ensures { result ≡ record { id = record { maker = maker; place = place }; a = AName a; b = AName b } }
{
    Link {
        id: LinkId { maker, place },
        a: Spot::Name(a),
        b: Spot::Name(b),
    }
}

/// Puts in a link. An error comes if it finds no room, or memory runs out.
fn put<L: LinkStore>(store: &mut L, link: Link) -> Result<(), AllocError>
    requires { (m : ALink) → IsIn m (L.links store.old) → m.id ≢ link.id }
    ensures { OnOk result (Alike (link ∷ L.links store.old) (L.links store.new)) }
{
    if !has_room(store, &link) {
        return Err(AllocError);
    }
    store.add(link)?;
    Ok(())
}

/// Whether these are the places of the links from a loose name to its far end.
pub(crate) fn has_places<L: LinkStore>(
    alloc: Global,
    store: &L,
    from: u32,
    places: &[u32],
) -> bool {
    match path_places(alloc, store, from) {
        Some(found) => found.as_slice() == places,
        None => false,
    }
}

/// The places of the links from a loose name to its far end.
pub(crate) fn path_places<L: LinkStore>(alloc: Global, store: &L, from: u32) -> Option<Vec<u32>> {
    let from = Spot::Name(from);
    if store.degree(from) != 1 {
        return None;
    }
    let ids = store.path(from).ok()?;
    let mut places = Vec::new(alloc);
    for id in &ids {
        places.push(id.place).ok()?;
    }
    Some(places)
}

fn nothing_is_in_an_empty_store<L: LinkStore>(rt: &impl Abort, alloc: Global) {
    let store = L::empty(alloc);
    assert_eq!(rt; store.rings(), 0);
    assert_eq!(rt; store.far(Spot::Name(7)), Far::Bare);
}

/// A store with a link from name 7 to itself.
fn ring<L: LinkStore>(alloc: Global) -> Result<L, AllocError> {
    let mut store = L::empty(alloc);
    put(&mut store, link(MakerId::Start, 0, 7, 7))?;
    Ok(store)
}

fn a_self_link_is_a_ring<L: LinkStore>(rt: &impl Abort, alloc: Global) -> Result<(), Fail> {
    let store = ring::<L>(alloc)?;
    assert_eq!(rt; store.rings(), 1);
    assert_eq!(rt; store.degree(Spot::Name(7)), 2);
    assert_eq!(rt; store.far(Spot::Name(7)), Far::Joint);
    assert_eq!(rt; store.far(Spot::Name(8)), Far::Bare);
    Ok(())
}

fn a_ring_leaves_no_room<L: LinkStore>(rt: &impl Abort, alloc: Global) -> Result<(), Fail> {
    let store = ring::<L>(alloc)?;
    assert!(rt; !has_room(&store, &link(MakerId::Start, 1, 8, 7)));
    assert!(rt; has_room(&store, &link(MakerId::Start, 1, 8, 8)));
    Ok(())
}

/// A store with a path of two links, from name 4 by name 5 to name 6.
fn two_links<L: LinkStore>(alloc: Global) -> Result<L, AllocError> {
    let mut store = L::empty(alloc);
    put(&mut store, link(MakerId::Start, 0, 4, 5))?;
    put(&mut store, link(MakerId::Start, 1, 6, 5))?;
    Ok(store)
}

fn two_links_make_a_path<L: LinkStore>(rt: &impl Abort, alloc: Global) -> Result<(), Fail> {
    let store = two_links::<L>(alloc)?;
    assert_eq!(rt; store.rings(), 0);
    assert_eq!(rt; store.far(Spot::Name(4)), Far::End(Spot::Name(6)));
    assert_eq!(rt; store.far(Spot::Name(5)), Far::Joint);
    assert_eq!(rt; store.far(Spot::Name(6)), Far::End(Spot::Name(4)));
    Ok(())
}

fn a_path_has_its_links_in_order<L: LinkStore>(rt: &impl Abort, alloc: Global) -> Result<(), Fail> {
    let store = two_links::<L>(alloc)?;
    assert!(rt; has_places(alloc, &store, 4, &[0, 1]));
    assert!(rt; has_places(alloc, &store, 6, &[1, 0]));
    Ok(())
}

/// A store with a path between the names 1 and 2, which an event closed to a ring, left again, and closed once more.
fn closed<L: LinkStore>(rt: &impl Abort, alloc: Global) -> Result<L, AllocError> {
    let mut store = L::empty(alloc);
    put(&mut store, link(MakerId::Start, 0, 1, 2))?;
    let closing = link(BY_EVENT, 0, 2, 1);
    if !has_room(&store, &closing) {
        return Err(AllocError);
    }
    there_and_back(&mut store, closing, EVENT)?;
    assert_eq!(rt; store.far(Spot::Name(1)), Far::End(Spot::Name(2)));
    put(&mut store, closing)?;
    Ok(store)
}

fn an_event_closes_a_path_and_is_taken_back<L: LinkStore>(
    rt: &impl Abort,
    alloc: Global,
) -> Result<(), Fail> {
    let mut store = closed::<L>(rt, alloc)?;
    assert_eq!(rt; store.rings(), 1);
    assert_eq!(rt; store.far(Spot::Name(1)), Far::Joint);
    store.take_of(EVENT);
    assert_eq!(rt; store.rings(), 0);
    assert_eq!(rt; store.far(Spot::Name(1)), Far::End(Spot::Name(2)));
    assert!(rt; has_places(alloc, &store, 2, &[0]));
    Ok(())
}

#[test]
fn rows_have_rings(rt: HostRuntime) -> Result<(), Fail> {
    nothing_is_in_an_empty_store::<LinkRows>(&rt, rt.alloc());
    a_self_link_is_a_ring::<LinkRows>(&rt, rt.alloc())?;
    a_ring_leaves_no_room::<LinkRows>(&rt, rt.alloc())
}

#[test]
fn rows_have_paths(rt: HostRuntime) -> Result<(), Fail> {
    two_links_make_a_path::<LinkRows>(&rt, rt.alloc())?;
    a_path_has_its_links_in_order::<LinkRows>(&rt, rt.alloc())
}

#[test]
fn rows_are_closed_and_opened(rt: HostRuntime) -> Result<(), Fail> {
    an_event_closes_a_path_and_is_taken_back::<LinkRows>(&rt, rt.alloc())
}

#[test]
fn ends_of_links(rt: HostRuntime) {
    let closed = link(BY_EVENT, 0, 1, 1);
    let open = link(MakerId::Start, 0, 1, 2);
    assert_eq!(rt; ends_at(Spot::Name(1), &closed), 2);
    assert_eq!(rt; ends_at(Spot::Name(2), &closed), 0);
    assert_eq!(rt; ends_at(Spot::Name(2), &open), 1);
    assert_eq!(rt; other_end(&open, Spot::Name(2)), Spot::Name(1));
}

#[test]
fn ends_and_makers_are_compared(rt: HostRuntime) {
    let closed = link(BY_EVENT, 0, 1, 1);
    let open = link(MakerId::Start, 0, 1, 2);
    assert_eq!(rt; one_if_same(open.a, closed.b), 1);
    assert_eq!(rt; one_if_same(open.b, closed.b), 0);
    assert!(rt; is_of(EVENT, closed.id));
    assert!(rt; !is_of(EVENT, open.id));
    assert!(rt; !is_of(EventId { slot: 3, line: 8 }, closed.id));
}
