// The letters of a history that two threads make.
ghost use Rattle.std.specs.Prelude.{◌≡◌};

use crate::benches::{FOUR_COPIES, bench_over};
use crate::turns::{fire_some, next_number, undo_some};
use ic_journal::{Bench, Store};
use ic_name::limits::MAX_LINES;
use ic_name::{Call, Event, EventId, EventName, Line, Reply};
use ic_shared::{Pass, Shared, settle, share};
use ic_trace::{Letter, check, letters, moves_to_canonical};
use std::alloc::Global;
use std::marker::Brand;
use std::sync::Wait;
use std::sync::ledger::{Blank, Ledger};
use std::thread::{Threads, for_each_mut};

/// The turns that each pass makes.
const TURNS: u32 = 100;

/// Makes the turns of the pass at this place: two in three fire, the others undo.
fn make_turns<B: Ledger, R: Wait>(rt: &R, shared: &Shared<B>, pass: &mut Pass<B>, place: usize) {
    let mut number = next_number(place as u64);
    for turn in 0..TURNS {
        number = next_number(number);
        if turn % 3 == 2 {
            undo_some(rt, shared, pass, number >> 33);
        } else {
            fire_some(rt, shared, pass, number >> 33);
        }
    }
}

/// The bench on which two threads made their turns, settled.
fn settled_of_two<B: Ledger + Send + Sync, R: Threads + Wait + Sync>(
    rt: &R,
    alloc: Global,
    bench: Bench<Store>,
    blank: Blank,
) -> Option<Bench<Store>>
    requires name { blank.name ≡ B.name }
    requires parts { (blank.parts ≡ B.parts) × (blank.parts ≡ 3) }
{
    let (shared, opening, mut passes) = share::<B>(alloc, bench, blank, 2).ok()?;
    for_each_mut(
        rt,
        passes.as_mut_slice(),
        2,
        &|place, pass| { make_turns(rt, &shared, pass, place) },
    );
    Some(settle(opening, passes, shared).ok()?.bench)
}

/// The bench of two threads. The first line of its history is refused.
fn two_threads<R: Threads + Wait + Sync>(rt: &R, alloc: Global) -> Option<Bench<Store>> {
    let mut bench = bench_over(alloc, FOUR_COPIES)?;
    let _ = bench.undo(EventId { slot: 0, line: 0 });
    settled_of_two::<Brand, R>(rt, alloc, bench, Blank::new(3))
}

/// Whether the call of a line was accepted.
fn is_accepted(line: &Line) -> bool {
    line.reply == Reply::Fired || line.reply == Reply::Undone
}

/// The event that was to be fired in the line of this number.
fn event_in(lines: &[Line], number: u32) -> Option<&Event> {
    match &lines.get(number as usize)?.call {
        Call::Fire(event) => Some(event),
        Call::Undo(_) => None,
    }
}

/// Whether an event has this name.
fn is_named(event: &Event, name: &EventName) -> bool {
    event.lead().is(name.lead()) && event.other().is(name.other())
}

/// Whether the letter is that of this call.
fn is_letter_of(lines: &[Line], call: &Call, letter: &Letter) -> bool {
    match (call, letter) {
        (Call::Fire(event), Letter::Fire(name)) => is_named(event, name),
        (Call::Undo(number), Letter::Undo(name)) => match event_in(lines, *number) {
            Some(event) => is_named(event, name),
            None => false,
        },
        _ => false,
    }
}

/// Whether the letters are those of the accepted lines, in order.
fn are_letters_of(lines: &[Line], letters: &[Letter]) -> bool {
    let mut rest = letters.iter();
    for line in lines {
        if is_accepted(line) {
            match rest.next() {
                Some(letter) => {
                    if !is_letter_of(lines, &line.call, letter) {
                        return false;
                    }
                }
                None => return false,
            }
        }
    }
    rest.next().is_none()
}

/// The firings of what stands on a bench, in canonical order.
fn firings(alloc: Global, bench: &Bench<Store>) -> Option<Vec<Letter>> {
    let mut firings = Vec::new(alloc);
    for id in &bench.standing().ok()? {
        let event = bench.event_of(*id).ok()??;
        firings.push(Letter::Fire(event.name().ok()?)).ok()?;
    }
    Some(firings)
}

/// Whether moves lead the letters of a bench to the firings of what stands on it.
fn are_led(alloc: Global, bench: &Bench<Store>, letters: &[Letter]) -> Option<bool> {
    if letters.len() > MAX_LINES {
        return None;
    }
    let moves = moves_to_canonical(alloc, bench.start(), letters).ok()?;
    let to = firings(alloc, bench)?;
    check(alloc, bench.start(), letters, &moves, &to).ok()
}

/// Whether the letters of a bench are those of its accepted lines, some and not all, and whether moves lead them to the firings
/// of what stands.
fn told(alloc: Global, bench: &Bench<Store>) -> Option<(bool, bool)> {
    let letters = letters(alloc, bench).ok()?;
    let lines = bench.history().ok()?;
    let some = !letters.is_empty() && letters.len() < lines.len();
    let led = are_led(alloc, bench, &letters)?;
    Some((some && are_letters_of(&lines, &letters), led))
}

/// What the letters of the bench of two threads tell.
fn told_of_two<R: Threads + Wait + Sync>(rt: &R, alloc: Global) -> Option<(bool, bool)> {
    let bench = two_threads(rt, alloc)?;
    told(alloc, &bench)
}

#[test]
fn letters_of_two_threads_are_their_accepted_calls(rt: HostRuntime) {
    assert_eq!(rt; told_of_two(&rt, rt.alloc()), Some((true, true)));
}
