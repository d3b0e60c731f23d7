use ic_journal::{Bench, Store};
use ic_name::limits::MAX_LINES;
use ic_name::{Event, EventId};
use ic_net::{Net, replay};
use ic_test_games::answers::answer_of;
use ic_test_games::player::{Game, Player, wins};
use ic_text::print_net;
use ic_trace::is_causal_order;
use ic_undo::{Mark, back, mark};
use std::alloc::Global;
use std::test::Fail;

/// The causal orders that are tried of each set.
const ORDERS: usize = 10;

/// Whether an event isn't chosen yet, and all its direct causes are.
fn is_next(bench: &Bench<Store>, chosen: &[EventId], id: EventId) -> Result<bool, Fail> {
    match bench.causes(id)? {
        Some(causes) => Ok(
            !chosen.contains(&id) && causes.iter().all(|cause| chosen.contains(cause)),
        ),
        None => Err("a standing event".into()),
    }
}

/// The events that may come next.
fn next_ones(
    alloc: Global,
    bench: &Bench<Store>,
    ids: &[EventId],
    chosen: &[EventId],
) -> Result<Vec<EventId>, Fail> {
    let mut ready = Vec::new(alloc);
    for id in ids {
        if is_next(bench, chosen, *id)? {
            ready.push(*id)?;
        }
    }
    Ok(ready)
}

/// One of the events that may come next, which one by a number, and the number that says how to go on: between them,
/// the numbers from 0 on lead to each order.
fn choose(ready: &[EventId], number: usize) -> Option<(EventId, usize)> {
    let place = number.checked_rem(ready.len())?;
    let further = number.checked_div(ready.len())?;
    Some((*ready.get(place)?, further))
}

/// A causal order of what stands, which one by a number.
fn causal_order(alloc: Global, bench: &Bench<Store>, number: usize) -> Result<Vec<EventId>, Fail> {
    let ids = bench.standing()?;
    let mut chosen = Vec::new(alloc);
    let mut left = number;
    for _ in 0..ids.len() {
        let Some((id, further)) = choose(&next_ones(alloc, bench, &ids, &chosen)?, left) else {
            return Err("an event that may come next".into());
        };
        left = further;
        chosen.push(id)?;
    }
    Ok(chosen)
}

/// The events of these ids.
fn events_under(alloc: Global, bench: &Bench<Store>, ids: &[EventId]) -> Result<Vec<Event>, Fail> {
    let mut events = Vec::new(alloc);
    for id in ids {
        let Some(event) = bench.event_of(*id)? else {
            return Err("a standing event".into());
        };
        events.push(event)?;
    }
    Ok(events)
}

/// Whether the bench's net is printed so.
fn is_printed(alloc: Global, bench: &Bench<Store>, text: &[u8]) -> Result<bool, Fail> {
    let net = bench.net()?;
    let shown = print_net(alloc, &net, bench.start().names())?;
    Ok(shown.as_slice() == text)
}

/// Whether a net is printed as the bench's is.
fn is_shown(alloc: Global, bench: &Bench<Store>, net: &Net) -> Result<bool, Fail> {
    let text = print_net(alloc, net, bench.start().names())?;
    is_printed(alloc, bench, &text)
}

/// Whether the events are replayed to the bench's net.
pub(crate) fn is_replayed(
    alloc: Global,
    bench: &Bench<Store>,
    events: &[Event],
) -> Result<bool, Fail> {
    match replay(alloc, bench.start(), events) {
        Ok(replayed) => is_shown(alloc, bench, &replayed),
        Err(_) => Ok(false),
    }
}

/// Whether the events are a causal order over the bench's start.
fn is_causal(alloc: Global, bench: &Bench<Store>, events: &[Event]) -> Result<bool, Fail> {
    if events.len() > MAX_LINES {
        return Ok(false);
    }
    Ok(is_causal_order(alloc, bench.start(), events)?)
}

/// Whether events are a causal order that leads to the bench's net.
fn events_agree(alloc: Global, bench: &Bench<Store>, events: &[Event]) -> Result<bool, Fail> {
    Ok(is_causal(alloc, bench, events)? && is_replayed(alloc, bench, events)?)
}

/// Whether a causal order of what stands, which one by a number, does.
fn order_agrees(alloc: Global, bench: &Bench<Store>, number: usize) -> Result<bool, Fail> {
    let ids = causal_order(alloc, bench, number)?;
    let events = events_under(alloc, bench, &ids)?;
    events_agree(alloc, bench, &events)
}

/// Whether causal orders of what stands do.
pub(crate) fn orders_agree(alloc: Global, bench: &Bench<Store>) -> Result<bool, Fail> {
    for number in 0..ORDERS {
        if !order_agrees(alloc, bench, number)? {
            return Ok(false);
        }
    }
    Ok(true)
}

/// Carries out a command.
fn call(alloc: Global, bench: &mut Bench<Store>, line: &[u8]) -> Result<(), Fail> {
    let _ = answer_of(alloc, bench, line)?;
    Ok(())
}

/// Whether they do after each of these commands.
fn agree_after(alloc: Global, bench: &mut Bench<Store>, commands: &[&[u8]]) -> Result<bool, Fail> {
    for line in commands {
        call(alloc, bench, line)?;
        if !orders_agree(alloc, bench)? {
            return Ok(false);
        }
    }
    Ok(true)
}

/// Causal orders of what stands lead to the net after each of these commands.
struct AgreeAfter(&'static [&'static [u8]]);

impl Game for AgreeAfter {
    fn is_won(&self, alloc: Global, player: &mut Player) -> Result<bool, Fail> {
        agree_after(alloc, &mut player.bench, self.0)
    }
}

const YOUNGER_RING: &[&[u8]] = &[b"fire 0 1", b"fire 2 3", b"undo 0 1"];

#[test]
fn orders_with_a_younger_ring(rt: HostRuntime) -> Result<(), Fail> {
    let net = b"D(x,p) = D(y,q); D(x,r) = D(y,s);";
    assert!(rt; wins(rt.alloc(), net, &AgreeAfter(YOUNGER_RING))?);
    Ok(())
}

const SPLIT_WIRE: &[&[u8]] = &[b"fire 0 2", b"fire 4 6", b"undo 0 2"];

#[test]
fn orders_with_a_split_wire(rt: HostRuntime) -> Result<(), Fail> {
    let net = b"D(p,E) = D(x,E); D(x,E) = D(q,E);";
    assert!(rt; wins(rt.alloc(), net, &AgreeAfter(SPLIT_WIRE))?);
    Ok(())
}

const UNWINDING: &[&[u8]] = &[
    b"fire 0 2",
    b"fire 1 0.0",
    b"fire 3 0.3",
    b"undo 0 2",
    b"fire 1.1 3.0",
    b"unwind 3 0.3",
];

#[test]
fn orders_of_what_is_unwound(rt: HostRuntime) -> Result<(), Fail> {
    assert!(rt; wins(rt.alloc(), b"G(E,a) = D(b,E);", &AgreeAfter(UNWINDING))?);
    Ok(())
}

#[test]
fn orders_of_four_copies(rt: HostRuntime) -> Result<(), Fail> {
    let net = b"G(E,a) = D(b,E); G(E,c) = D(d,E); G(E,e) = D(f,E); G(E,g) = D(h,E);";
    assert!(rt; wins(rt.alloc(), net, &AgreeAfter(&[b"reduce 100"]))?);
    Ok(())
}

/// Whether the bench goes back to a mark.
fn goes_back(alloc: Global, bench: &mut Bench<Store>, stood: &Mark) -> bool {
    stood.fits(bench) && back(alloc, bench, stood).is_ok()
}

/// Whether causal orders lead to the net after each of these commands, and after going back behind them to what stood.
fn agree_when_back(
    alloc: Global,
    bench: &mut Bench<Store>,
    commands: &[&[u8]],
) -> Result<bool, Fail> {
    let stood = mark(alloc, bench)?;
    Ok(
        agree_after(alloc, bench, commands)?
            && goes_back(alloc, bench, &stood)
            && orders_agree(alloc, bench)?,
    )
}

const TWO_FIRED: [&[u8]; 2] = [b"fire 0 1", b"fire 0.0 0.2"];

const UNWOUND: [&[u8]; 2] = [b"reduce 2", b"unwind 0.0 0.2"];

/// They do after two firings, after going back behind an unwinding and behind a reduction, and once all is undone.
struct AgreeWithMarks;

impl Game for AgreeWithMarks {
    fn is_won(&self, alloc: Global, player: &mut Player) -> Result<bool, Fail> {
        let bench = &mut player.bench;
        Ok(
            agree_after(alloc, bench, &TWO_FIRED)?
                && agree_when_back(alloc, bench, &UNWOUND)?
                && agree_when_back(alloc, bench, &[b"reduce 3"])?
                && agree_after(alloc, bench, &[b"undo-all"])?,
        )
    }
}

#[test]
fn orders_with_a_mark(rt: HostRuntime) -> Result<(), Fail> {
    assert!(rt; wins(rt.alloc(), b"G(x,a) = D(x,b);", &AgreeWithMarks)?);
    Ok(())
}
