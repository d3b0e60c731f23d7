use crate::traces::{firings, leads};
use ic_journal::{Bench, LinkStore};
use ic_test_games::calls::{fired, some_agents, some_event};
use ic_test_games::numbers::Numbers;
use ic_test_games::player::{Game, Player, wins};
use ic_test_games::random_nets::some_net;
use ic_trace::{Letter, Move, letters, moves_to_canonical};
use std::alloc::{AllocError, Global};
use std::test::Fail;

/// Fires two agents of active pairs, if there are any.
fn fire_some<L: LinkStore>(bench: &mut Bench<L>, numbers: &mut Numbers) -> Result<(), Fail> {
    if let Some((lead, other)) = some_agents(bench, numbers)? {
        let _ = fired(bench, lead, other)?;
    }
    Ok(())
}

/// Makes some call: an undo, which may be refused, or a firing.
fn call<L: LinkStore>(bench: &mut Bench<L>, numbers: &mut Numbers) -> Result<(), Fail> {
    if numbers.below(3) != 0 {
        return fire_some(bench, numbers);
    }
    match some_event(bench, numbers)? {
        Some(id) => {
            let _ = bench.undo(id);
            Ok(())
        }
        None => fire_some(bench, numbers),
    }
}

/// How a move of a list is changed.
#[derive(Clone, Copy)]
enum Change {
    LeftOut,
    Doubled,
    OnePlaceOn,
}

/// The move at the next place.
fn one_place_on(step: Move) -> Move {
    match step {
        Move::Swap(place) => Move::Swap(place.wrapping_add(1)),
        Move::Cancel(place) => Move::Cancel(place.wrapping_add(1)),
    }
}

/// The moves, of which the one with this number is changed so.
fn changed(
    alloc: Global,
    moves: &[Move],
    number: usize,
    change: Change,
) -> Result<Vec<Move>, AllocError> {
    let mut others = Vec::new(alloc);
    for (k, step) in moves.iter().enumerate() {
        match (k == number, change) {
            (true, Change::LeftOut) => {}
            (true, Change::Doubled) => {
                others.push(*step)?;
                others.push(*step)?;
            }
            (true, Change::OnePlaceOn) => others.push(one_place_on(*step))?,
            (false, _) => others.push(*step)?,
        }
    }
    Ok(others)
}

/// The numbers without those at this place and the next.
fn without_two(alloc: Global, numbers: &[usize], place: usize) -> Result<Vec<usize>, AllocError> {
    let mut others = Vec::new(alloc);
    for (k, number) in numbers.iter().enumerate() {
        if k != place && k != place.wrapping_add(1) {
            others.push(*number)?;
        }
    }
    Ok(others)
}

/// The numbers of which those at this place and the next have changed places.
fn with_two_exchanged(
    alloc: Global,
    numbers: &[usize],
    place: usize,
) -> Result<Vec<usize>, AllocError> {
    let mut others = Vec::from_slice(alloc, numbers)?;
    let next = place.wrapping_add(1);
    if next < others.len() && place < others.len() {
        others.swap(place, next);
    }
    Ok(others)
}

/// The numbers of the letters that the moves leave of so many, whether they are lawful or not.
fn left_of(alloc: Global, count: usize, moves: &[Move]) -> Result<Vec<usize>, AllocError> {
    let mut left = Vec::new(alloc);
    for number in 0..count {
        left.push(number)?;
    }
    for step in moves {
        left = match *step {
            Move::Swap(place) => with_two_exchanged(alloc, &left, place)?,
            Move::Cancel(place) => without_two(alloc, &left, place)?,
        };
    }
    Ok(left)
}

/// Whether the letters of these numbers are those of the list.
fn are_those(letters: &[Letter], numbers: &[usize], to: &[Letter]) -> bool {
    if numbers.len() != to.len() {
        return false;
    }
    for (number, letter) in numbers.iter().zip(to) {
        if letters.get(*number) != Some(letter) {
            return false;
        }
    }
    true
}

/// The letters of a session, and the firings of what it leaves.
#[derive(Drop)]
struct Run {
    letters: Vec<Letter>,
    to: Vec<Letter>,
}

/// Whether these moves are refused, if what they leave isn't the list that they were to lead to.
fn is_told_apart<L: LinkStore>(
    alloc: Global,
    bench: &Bench<L>,
    run: &Run,
    moves: &[Move],
) -> Result<bool, Fail> {
    let left = left_of(alloc, run.letters.len(), moves)?;
    if are_those(&run.letters, &left, &run.to) {
        return Ok(true);
    }
    Ok(!leads(alloc, bench.start(), &run.letters, moves, &run.to)?)
}

/// Whether each change of each move is told apart.
fn changes_are_told_apart<L: LinkStore>(
    alloc: Global,
    bench: &Bench<L>,
    run: &Run,
    moves: &[Move],
) -> Result<bool, Fail> {
    for number in 0..moves.len() {
        for change in [Change::LeftOut, Change::Doubled, Change::OnePlaceOn] {
            let others = changed(alloc, moves, number, change)?;
            if !is_told_apart(alloc, bench, run, &others)? {
                return Ok(false);
            }
        }
    }
    Ok(true)
}

/// Whether moves lead the letters of a run to its firings, and changed ones don't.
fn is_checked<L: LinkStore>(alloc: Global, bench: &Bench<L>, run: &Run) -> Result<bool, Fail> {
    match moves_to_canonical(alloc, bench.start(), &run.letters) {
        Ok(moves) => Ok(
            leads(alloc, bench.start(), &run.letters, &moves, &run.to)?
                && changes_are_told_apart(alloc, bench, run, &moves)?,
        ),
        Err(_) => Ok(false),
    }
}

/// After some calls, which ones by a number, moves lead the letters to the firings of what stands, and changed ones don't.
#[derive(Drop)]
struct SomeSession(u32);

impl Game for SomeSession {
    fn is_won(&self, alloc: Global, player: &mut Player) -> Result<bool, Fail> {
        let mut numbers = Numbers::from_seed(self.0);
        for _ in 0..16 {
            call(&mut player.bench, &mut numbers)?;
        }
        let run = Run {
            letters: letters(alloc, &player.bench)?,
            to: firings(alloc, &player.bench)?,
        };
        is_checked(alloc, &player.bench, &run)
    }
}

/// Whether that is so over some net, which one by a number.
fn is_traced(alloc: Global, seed: u32) -> Result<bool, Fail> {
    let mut numbers = Numbers::from_seed(seed);
    let text = some_net(alloc, &mut numbers)?;
    wins(alloc, &text, &SomeSession(numbers.last()))
}

#[test]
fn moves_of_sessions_are_told_from_others(rt: HostRuntime) -> Result<(), Fail> {
    for seed in 0..500u32 {
        assert!(rt; is_traced(rt.alloc(), seed)?);
    }
    Ok(())
}
