// Sessions in which each command comes twice, where one allocation is refused, whichever it is: bench/refused_growth.py
// refuses each in turn. What one command didn't do the second does, so that all end alike.
use crate::session::running::{plain, run};
use ic_session::{Fault, MAX_READS, Status};
use std::alloc::Global;
use std::sync::Wait;
use std::test::Fail;
use std::thread::Threads;

const INPUT: &[u8] =
    b"G(E,a) = D(b,E);\n---\nabsorb 1\n0 2\nabsorb 1\n0 2\nmark m\nmark m\nreduce 9\nreduce 9\nunwind 1 0.0\nunwind 1 0.0\nback m\nback m\nfire 1 0.0\nfire 1 0.0\njournal\njournal\n";

const OUTPUT: &[u8] =
    b"absorbed 1\nabsorbed 0\nmarked m 1\nmarked m 1\nreduced 3 normal\nreduced 0 normal\nunwound 2\n1.1 3.0\n1 0.0\nrefused 31 not standing\nback m undone 1 fired 0\nback m undone 0 fired 0\nfired 1 0.0\nrefused 21 not active\njournal 2\n0 2 rank 0\n1 0.0 rank 1\njournal 2\n0 2 rank 0\n1 0.0 rank 1\n";

const JOURNAL: &[u8] = b"journal 2\n0 2 rank 0\n1 0.0 rank 1\n";

const JOURNAL_ONCE: &[u8] = b"journal 2\n0 2 rank 0\n1 0.0 rank 1\nrefused 25 memory\n";

/// How a session by one worker or by two ends, and what is written.
fn session<R: Threads + Wait + Sync>(
    rt: &R,
    alloc: Global,
    two: bool,
) -> (Result<Status, Fault>, Vec<u8>) {
    let mut reader = INPUT;
    let mut writer = Vec::new(alloc);
    let workers = if two { 2 } else { 1 };
    let end = run(
        rt,
        alloc,
        plain(workers),
        MAX_READS,
        &mut reader,
        &mut writer,
    );
    (end, writer)
}

/// Whether a session that ends so, with this written, did what it should: at its end the journal is what it is after all
/// commands, and one that is broken off wrote a front of what it writes with memory.
fn is_right(end: Result<Status, Fault>, written: &[u8]) -> bool {
    match end {
        Ok(_) => written.ends_with(JOURNAL) || written.ends_with(JOURNAL_ONCE),
        Err(_) => OUTPUT.starts_with(written),
    }
}

/// Whether it was answered whole.
fn is_whole(end: Result<Status, Fault>, written: &[u8]) -> bool {
    end == Ok(Status::Ended) && written == OUTPUT
}

/// Whether two sessions, in one of which an allocation is refused, end right, and one of them is answered whole.
fn ends_right<R: Threads + Wait + Sync>(rt: &R, alloc: Global, two: bool) -> bool {
    let (end, written) = session(rt, alloc, two);
    let (again, second) = session(rt, alloc, two);
    is_right(end, &written)
        && is_right(again, &second)
        && (is_whole(end, &written) || is_whole(again, &second))
}

#[test]
fn one_worker(rt: HostRuntime) -> Result<(), Fail> {
    assert!(rt; ends_right(&rt, rt.alloc(), false));
    Ok(())
}

#[test]
fn two_workers(rt: HostRuntime) -> Result<(), Fail> {
    assert!(rt; ends_right(&rt, rt.alloc(), true));
    Ok(())
}
