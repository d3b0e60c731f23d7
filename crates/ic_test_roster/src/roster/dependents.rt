use crate::roster::standing::{are_alike, has_causes, stand_after, take_out};
use ic_name::EventId;
use ic_roster::Roster;
use std::alloc::Global;

/// Three events: the first is a cause of the others, and the second of the third, which is a cause of none.
fn stand_three(alloc: Global, roster: &mut Roster) -> Option<(EventId, EventId, EventId)> {
    let first = stand_after(alloc, roster, (3, 9), 4, &[], &[])?;
    let second = stand_after(alloc, roster, (5, 8), 2, &[], &[first])?;
    let third = stand_after(alloc, roster, (6, 7), 7, &[], &[first, second])?;
    Some((first, second, third))
}

/// Whether three events have their causes.
fn have_causes(roster: &Roster, first: EventId, second: EventId, third: EventId) -> bool {
    has_causes(roster, first, &[])
        && has_causes(roster, second, &[first])
        && has_causes(roster, third, &[first, second])
}

/// Whether these are the dependents of an event, each listed once, in whatever order.
fn is_needed_by(alloc: Global, roster: &Roster, id: EventId, dependents: &[EventId]) -> bool {
    match roster.event_dependents(id).to_vec(alloc) {
        Ok(ids) => are_alike(&ids, dependents),
        Err(_) => false,
    }
}

/// Whether three events have their dependents.
fn have_dependents(
    alloc: Global,
    roster: &Roster,
    first: EventId,
    second: EventId,
    third: EventId,
) -> bool {
    is_needed_by(alloc, roster, first, &[second, third])
        && is_needed_by(alloc, roster, second, &[third])
        && is_needed_by(alloc, roster, third, &[])
}

/// Whether the last of them goes, but not the first, and is then no dependent of the others.
fn last_goes(
    alloc: Global,
    roster: &mut Roster,
    first: EventId,
    second: EventId,
    third: EventId,
) -> bool {
    take_out(roster, first).is_none()
        && take_out(roster, third).is_some()
        && roster.event(third).is_none()
        && is_needed_by(alloc, roster, first, &[second])
        && is_needed_by(alloc, roster, second, &[])
}

/// Whether three events have their causes, whether they have their dependents, and whether the last goes.
fn what_three_show(alloc: Global, roster: &mut Roster) -> Option<(bool, bool, bool)> {
    let (first, second, third) = stand_three(alloc, roster)?;
    let caused = have_causes(roster, first, second, third);
    let used = have_dependents(alloc, roster, first, second, third);
    let goes = last_goes(alloc, roster, first, second, third);
    Some((caused, used, goes))
}

#[test]
fn causes_and_dependents_are_kept_until_an_event_goes(rt: HostRuntime) {
    let mut roster = Roster::new(rt.alloc());
    let none = EventId { slot: 0, line: 4 };
    assert!(rt; roster.event_dependents(none).next().is_none());
    assert_eq!(rt;
        what_three_show(rt.alloc(), &mut roster),
        Some((true, true, true))
    );
}
