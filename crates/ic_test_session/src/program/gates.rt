use ic_program::{Host, run_program};
use ic_session::Gate;
use std::alloc::Global;
use std::fs::Files;
use std::sync::Wait;
use std::sync::atomic::{AtomicU64, Ordering};
use std::thread::Threads;

/// A gate that counts the commits that it sees.
#[derive(Drop)]
struct Counter {
    commits: AtomicU64,
}

impl Gate for Counter {
    fn before_commit(&self, _worker: usize, _ticket: u64) {}

    fn after_commit(&self, _worker: usize, _ticket: u64) {
        self.commits.fetch_add(1, Ordering::Relaxed);
    }
}

/// How many commits the program's gate sees if it is run on these words and reduces by three events.
fn commits_seen<T: Threads + Wait + Sync + Files>(rt: &T, alloc: Global, words: &[&str]) -> u64 {
    let counter = Counter {
        commits: AtomicU64::new(0),
    };
    let host = Host {
        threads: rt,
        alloc,
        files: rt,
        gate: &counter,
    };
    let mut reader: &[u8] = b"G(x,a) = D(x,b);\n---\nreduce 3\n";
    let mut written: Vec<u8> = Vec::new(alloc);
    let mut said: Vec<u8> = Vec::new(alloc);
    let _ = run_program(&host, words, &mut reader, &mut written, &mut said);
    counter.commits.load(Ordering::Relaxed)
}

#[test]
fn only_a_session_that_explains_itself_tells_of_commits(rt: HostRuntime) {
    assert_eq!(rt; commits_seen(&rt, rt.alloc(), &["icbench"]), 0);
    assert_eq!(rt; commits_seen(&rt, rt.alloc(), &["icbench", "--explain"]), 3);
}
