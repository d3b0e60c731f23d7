// A desk whose reductions a gate sees.
use ic_command::{Command, Request};
use ic_desk::{Desk, Gate, SweepSize};
use ic_journal::Store;
use ic_text::read_net;
use std::alloc::Global;
use std::sync::Wait;
use std::sync::atomic::{AtomicU64, Ordering};
use std::test::Fail;
use std::thread::Threads;

/// Counts the tickets that are drawn, those that are used, and those that are drawn before the one before is used.
#[derive(Drop)]
struct Counter {
    drawn: AtomicU64,
    used: AtomicU64,
    ahead: AtomicU64,
}

impl Gate for Counter {
    fn before_commit(&self, _worker: usize, _ticket: u64) {
        let drawn = self.drawn.fetch_add(1, Ordering::SeqCst);
        if self.used.load(Ordering::SeqCst) < drawn {
            self.ahead.fetch_add(1, Ordering::SeqCst);
        }
    }

    fn after_commit(&self, _worker: usize, _ticket: u64) {
        self.used.fetch_add(1, Ordering::SeqCst);
    }
}

/// Whether a desk with a gate answers that so many workers reduced it to its normal end, which takes four events.
fn reduces<T: Threads + Wait + Sync>(
    threads: &T,
    alloc: Global,
    workers: u32,
    gate: &Counter,
) -> Option<bool> {
    let start = read_net(alloc, b"G(E,a) = D(b,E);\n").ok()?;
    let mut desk: Desk<Store> = Desk::over(alloc, start).ok()?;
    let reduce = Request::Bench(Command::Reduce(100));
    let answer = if workers > 1 {
        let size = SweepSize::new(workers, 100)?;
        desk.sweep(threads, alloc, size, gate).ok()?.1
    } else {
        desk.carry_out(alloc, reduce, gate).ok()?
    };
    Some(answer.bytes() == b"reduced 4 normal\n".as_slice())
}

/// How many commits the gate saw in that reduction, and whether tickets were drawn ahead; `None` if it is answered
/// otherwise.
fn commits<T: Threads + Wait + Sync>(
    threads: &T,
    alloc: Global,
    workers: u32,
) -> Option<(u64, bool)> {
    let gate = Counter {
        drawn: AtomicU64::new(0),
        used: AtomicU64::new(0),
        ahead: AtomicU64::new(0),
    };
    if reduces(threads, alloc, workers, &gate)? {
        let ahead = gate.ahead.load(Ordering::SeqCst) > 0;
        Some((gate.used.load(Ordering::SeqCst), ahead))
    } else {
        None
    }
}

/// One worker draws each ticket as it fires, and those of a sweep draw some ahead.
#[test]
fn many_workers_sweep_and_one_does_not(rt: HostRuntime) -> Result<(), Fail> {
    assert_eq!(rt; commits(&rt, rt.alloc(), 1), Some((4, false)));
    assert_eq!(rt; commits(&rt, rt.alloc(), 2), Some((4, true)));
    Ok(())
}
