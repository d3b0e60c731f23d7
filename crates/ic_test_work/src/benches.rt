// Benches for tests, calls of them, and what they show as text.
use ic_journal::{Bench, Proposal, Store};
use ic_name::{AgentName, EventId, EventName, Kind};
use ic_shared::{Pass, Shared};
use ic_text::{print_net, read_net};
use std::alloc::Global;
use std::sync::Wait;
use std::sync::ledger::Ledger;

/// Four active pairs, the agents 0 and 2, 4 and 6, 8 and 10, 12 and 14, from each of which four events come.
pub const FOUR_COPIES: &[u8] =
    b"G(E,a) = D(b,E); G(E,c) = D(d,E); G(E,e) = D(f,E); G(E,g) = D(h,E);";

/// The net and the journal that any sweep of the four copies leaves at a normal end.
pub const FOUR_COPIES_SWEPT: &[u8] =
    b"# agents 16 wires 20 rings 0\nD(_0,_1) = a;\nG(_2,_0) = b;\nE = _2;\nE = _1;\nD(_3,_4) = c;\nG(_5,_3) = d;\nE = _5;\nE = _4;\nD(_6,_7) = e;\nG(_8,_6) = f;\nE = _8;\nE = _7;\nD(_9,_10) = g;\nG(_11,_9) = h;\nE = _11;\nE = _10;\njournal 16\n0 2 rank 0\n4 6 rank 0\n8 10 rank 0\n12 14 rank 0\n1 0.0 rank 1\n3 0.3 rank 1\n5 4.0 rank 1\n7 4.3 rank 1\n9 8.0 rank 1\n11 8.3 rank 1\n13 12.0 rank 1\n15 12.3 rank 1\n1.1 3.0 rank 2\n5.1 7.0 rank 2\n9.1 11.0 rank 2\n13.1 15.0 rank 2\n";

/// A net without an end: each event makes an active pair again.
pub const ENDLESS: &[u8] = b"G(x,a) = D(x,b);";

/// A bench over the net of a text.
pub fn bench_over(alloc: Global, text: &[u8]) -> Option<Bench<Store>> {
    let start = read_net(alloc, text).ok()?;
    Bench::over(alloc, start).ok()
}

/// A proposal that the start agents with these numbers meet.
pub fn proposal(alloc: Global, gamma: u16, delta: u16) -> Option<Proposal> {
    let left = AgentName::start(alloc, gamma)?;
    let right = AgentName::start(alloc, delta)?;
    Proposal::make(left, Kind::Gamma, right, Kind::Delta)
}

/// The id of the event of the start agents with these numbers, where it stands.
pub fn event(bench: &Bench<Store>, alloc: Global, gamma: u16, delta: u16) -> Option<EventId> {
    let left = AgentName::start(alloc, gamma)?;
    let right = AgentName::start(alloc, delta)?;
    bench.event(&EventName::of(left, right)?)
}

/// Fires the event of two start agents, and sees that it then stands under the id that came back.
pub fn fire<B: Ledger, R: Wait>(
    rt: &R,
    alloc: Global,
    shared: &Shared<B>,
    pass: &mut Pass<B>,
    gamma: u16,
    delta: u16,
) -> Option<EventId> {
    let id = shared.fire(rt, pass, proposal(alloc, gamma, delta)?).ok()?;
    let seen = shared.look(rt, |bench| event(bench, alloc, gamma, delta));
    if seen == Some(id) { seen } else { None }
}

/// The net of a bench, as text.
pub fn net_of(alloc: Global, bench: &Bench<Store>) -> Option<Vec<u8>> {
    let net = bench.net().ok()?;
    print_net(alloc, &net, bench.start().names()).ok()
}

/// The net of a bench and its journal, as text.
pub fn shown(alloc: Global, bench: &Bench<Store>) -> Option<Vec<u8>> {
    let mut text = net_of(alloc, bench)?;
    let journal = bench.journal().ok()?;
    text.extend_from_slice(&journal).ok()?;
    Some(text)
}
