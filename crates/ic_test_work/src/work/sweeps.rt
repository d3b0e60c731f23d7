use crate::benches::{ENDLESS, FOUR_COPIES, FOUR_COPIES_SWEPT, bench_over, shown};
use crate::work::random_nets::{Numbers, some_net};
use ic_journal::{Bench, Store};
use ic_work::{End, NoGate, SweepSize, Swept, sweep};
use std::alloc::Global;
use std::sync::Wait;
use std::test::Fail;
use std::thread::Threads;

/// A new bench over the net of a text, swept.
fn swept<R: Threads + Wait + Sync>(
    rt: &R,
    alloc: Global,
    text: &[u8],
    workers: u32,
    budget: u32,
) -> Option<Swept> {
    let size = SweepSize::new(workers, budget)?;
    let bench = bench_over(alloc, text)?;
    sweep(rt, alloc, bench, size, &NoGate).ok()
}

/// What a sweep tells, and what its bench shows.
#[derive(Drop)]
struct Outcome {
    fired: u32,
    end: End,
    ran: u32,
    lines: u32,
    text: Vec<u8>,
}

/// The outcome of a sweep of the net of a text.
fn outcome_of<R: Threads + Wait + Sync>(
    rt: &R,
    alloc: Global,
    text: &[u8],
    workers: u32,
    budget: u32,
) -> Option<Outcome> {
    let swept = swept(rt, alloc, text, workers, budget)?;
    let text = shown(alloc, &swept.bench)?;
    Some(Outcome {
        fired: swept.fired,
        end: swept.end,
        ran: swept.ran,
        lines: swept.bench.lines(),
        text,
    })
}

/// Whether so many workers sweep the four copies to their end.
fn sweeps_four_copies<R: Threads + Wait + Sync>(rt: &R, alloc: Global, workers: u32) -> bool {
    match outcome_of(rt, alloc, FOUR_COPIES, workers, 100) {
        Some(told) => {
            told.fired == 16
                && told.end == End::Normal
                && 1 <= told.ran
                && told.ran <= workers
                && told.text.as_slice() == FOUR_COPIES_SWEPT
        }
        None => false,
    }
}

#[test]
fn four_copies_end_alike_with_any_workers(rt: HostRuntime) -> Result<(), Fail> {
    for workers in [1, 2, 8] {
        assert!(rt;
            sweeps_four_copies(&rt, rt.alloc(), workers),
            "{workers} workers"
        );
    }
    Ok(())
}

/// How many events a sweep fires, and why it ends.
fn ending<R: Threads + Wait + Sync>(
    rt: &R,
    alloc: Global,
    text: &[u8],
    workers: u32,
    budget: u32,
) -> Option<(u32, End)> {
    let swept = swept(rt, alloc, text, workers, budget)?;
    Some((swept.fired, swept.end))
}

#[test]
fn no_more_is_fired_than_the_budget(rt: HostRuntime) -> Result<(), Fail> {
    for (text, budget) in [
        (ENDLESS, 10),
        (ENDLESS, 1),
        (ENDLESS, 0),
        (FOUR_COPIES, 7),
        (FOUR_COPIES, 1),
    ] {
        let ended = ending(&rt, rt.alloc(), text, 4, budget);
        assert!(rt; ended == Some((budget, End::Budget)), "budget {budget}");
    }
    Ok(())
}

/// How many lines the journal of a bench has.
fn journal_lines(bench: &Bench<Store>) -> Option<usize> {
    let journal = bench.journal().ok()?;
    let mut lines = 0usize;
    for byte in &journal {
        if *byte == b'\n' {
            lines = lines.saturating_add(1);
        }
    }
    Some(lines)
}

/// How many events two workers fire, why they end, and how many lines the journal has then.
fn ending_of_two<R: Threads + Wait + Sync>(
    rt: &R,
    alloc: Global,
    text: &[u8],
    budget: u32,
) -> Option<(u32, End, usize)> {
    let swept = swept(rt, alloc, text, 2, budget)?;
    Some((swept.fired, swept.end, journal_lines(&swept.bench)?))
}

#[test]
fn two_workers_fire_an_endless_net_as_often_as_they_may(rt: HostRuntime) -> Result<(), Fail> {
    let ended = ending_of_two(&rt, rt.alloc(), ENDLESS, 2_000);
    assert!(rt; ended == Some((2_000, End::Budget, 2_001)));
    Ok(())
}

#[test]
fn names_are_long_at_the_limit(rt: HostRuntime) -> Result<(), Fail> {
    let ended = ending(&rt, rt.alloc(), ENDLESS, 2, 20_000);
    assert!(rt; ended == Some((16_383, End::Limit)));
    Ok(())
}

#[test]
fn nothing_is_fired_where_nothing_is_active(rt: HostRuntime) -> Result<(), Fail> {
    let Some(told) = outcome_of(&rt, rt.alloc(), b"x = y;", 8, 1_000) else {
        return Err("a sweep that settles".into());
    };
    assert!(rt; told.fired == 0 && told.end == End::Normal && told.lines == 0);
    Ok(())
}

#[test]
fn as_many_workers_run_as_were_asked_for_but_no_more_than_the_budget(
    rt: HostRuntime,
) -> Result<(), Fail> {
    for (workers, budget, ran) in [
        (1, 1_000, 1),
        (3, 1_000, 3),
        (64, 1_000, 64),
        (64, 5, 5),
        (64, 1, 1),
        (64, 0, 1),
    ] {
        let Some(told) = outcome_of(&rt, rt.alloc(), b"E = E;", workers, budget) else {
            return Err("a sweep that settles".into());
        };
        assert!(rt; told.ran == ran, "{workers} workers, budget {budget}");
    }
    Ok(())
}

/// Whether so many workers fire as many events as one did, and leave the same net and journal.
fn ends_like<R: Threads + Wait + Sync>(
    rt: &R,
    alloc: Global,
    text: &[u8],
    workers: u32,
    one: &Outcome,
) -> bool {
    match outcome_of(rt, alloc, text, workers, 100) {
        Some(several) => {
            several.end == End::Normal
                && several.fired == one.fired
                && several.text.as_slice() == one.text.as_slice()
        }
        None => false,
    }
}

/// Whether several workers end as one does; `None` if one worker comes to no end soon.
fn end_alike<R: Threads + Wait + Sync>(rt: &R, alloc: Global, text: &[u8]) -> Option<bool> {
    let Some(one) = outcome_of(rt, alloc, text, 1, 100) else {
        return Some(false);
    };
    if one.end != End::Normal {
        return None;
    }
    for workers in 2..=8 {
        if !ends_like(rt, alloc, text, workers, &one) {
            return Some(false);
        }
    }
    Some(true)
}

/// The same of the next net of which one worker comes to an end.
fn next_ends_alike<R: Threads + Wait + Sync>(rt: &R, alloc: Global, numbers: &mut Numbers) -> bool {
    for _ in 0..100 {
        let Some(text) = some_net(alloc, numbers) else {
            return false;
        };
        if let Some(alike) = end_alike(rt, alloc, &text) {
            return alike;
        }
    }
    false
}

#[test]
fn a_thousand_sweeps_of_random_nets_end_as_one_worker_does(rt: HostRuntime) -> Result<(), Fail> {
    let mut numbers = Numbers::from(7);
    for _ in 0..150 {
        assert!(rt; next_ends_alike(&rt, rt.alloc(), &mut numbers));
    }
    Ok(())
}
