// Undos with room in the history, over either store, where one allocation is refused, whichever it is:
// bench/refused_growth.py refuses each in turn. Once there is room, they take no memory.
use ic_answer::carry_out;
use ic_command::Command;
use ic_desk::NoGate;
use ic_journal::{Bench, LinkStore, Store};
use ic_link::LinkRows;
use ic_text::read_net;
use std::alloc::Global;
use std::test::Fail;

/// A net, how it is printed, how it is printed at its end, and whether its events are undone there from the first on, and
/// not from the last on.
struct Net {
    text: &'static [u8],
    start: &'static [u8],
    end: &'static [u8],
    from_first: bool,
}

/// Undos take children back; open a ring, at the event that closed it and at an older one; and split wires, the first of
/// them in the middle.
const NETS: [Net; 4] = [
    Net {
        text: b"G(E,a) = D(b,E);\n",
        start: b"# agents 4 wires 5 rings 0\nG(_0,a) = _1;\nE = _0;\nD(b,_2) = _1;\nE = _2;\n",
        end: b"# agents 4 wires 5 rings 0\nD(_0,_1) = a;\nG(_2,_0) = b;\nE = _2;\nE = _1;\n",
        from_first: false,
    },
    Net {
        text: b"D(x,p) = D(y,q); D(x,r) = D(y,s);\n",
        start: b"# agents 4 wires 8 rings 0\nD(_0,p) = _1;\nD(_2,q) = _1;\nD(_0,r) = _3;\nD(_2,s) = _3;\n",
        end: b"# agents 0 wires 2 rings 1\np = q;\nr = s;\n_0 = _0;\n",
        from_first: false,
    },
    Net {
        text: b"D(x,p) = D(y,q); D(x,r) = D(y,s);\n",
        start: b"# agents 4 wires 8 rings 0\nD(_0,p) = _1;\nD(_2,q) = _1;\nD(_0,r) = _3;\nD(_2,s) = _3;\n",
        end: b"# agents 0 wires 2 rings 1\np = q;\nr = s;\n_0 = _0;\n",
        from_first: true,
    },
    Net {
        text: b"D(x,a) = D(y,b); D(p,c) = D(x,d); D(y,e) = D(q,f);\n",
        start: b"# agents 6 wires 13 rings 0\nD(_0,a) = _1;\nD(_2,b) = _1;\nD(p,c) = _3;\nD(_0,d) = _3;\nD(_2,e) = _4;\nD(q,f) = _4;\n",
        end: b"# agents 0 wires 4 rings 0\na = b;\nc = d;\ne = f;\np = q;\n",
        from_first: true,
    },
];

/// A bench over a net.
fn bench<L: LinkStore>(alloc: Global, net: &Net) -> Option<Bench<L>> {
    let start = read_net(alloc, net.text).ok()?;
    Bench::over(alloc, start).ok()
}

/// One over it, at the first try or the second.
fn bench_at_last<L: LinkStore>(alloc: Global, net: &Net) -> Option<Bench<L>> {
    match bench(alloc, net) {
        Some(bench) => Some(bench),
        None => bench(alloc, net),
    }
}

/// Reduces the net to its end, at the first try or the second, and makes room for a line for each event.
fn reduces_with_room<L: LinkStore>(alloc: Global, bench: &mut Bench<L>) -> bool {
    for _ in 0..2u32 {
        let _ = carry_out(alloc, bench, Command::Reduce(9), &NoGate);
    }
    bench.reserve(4).is_ok() || bench.reserve(4).is_ok()
}

/// Whether the net is printed so, at the first try or the second.
fn prints<L: LinkStore>(alloc: Global, bench: &mut Bench<L>, text: &[u8]) -> bool {
    let mut right = false;
    for _ in 0..2u32 {
        right = right
            || match carry_out(alloc, bench, Command::Net, &NoGate) {
                Ok(answer) => answer.bytes() == text,
                Err(_) => false,
            };
    }
    right
}

/// Whether each event is undone at the first try, from the first on or from the last on.
fn undoes_all<L: LinkStore>(bench: &mut Bench<L>, from_first: bool) -> Option<bool> {
    let mut ids = match bench.standing() {
        Ok(ids) => ids,
        Err(_) => bench.standing().ok()?,
    };
    if !from_first {
        ids.reverse();
    }
    let mut right = true;
    for id in ids.iter() {
        right = right && bench.undo(*id).is_ok();
    }
    Some(right)
}

/// Whether all events of the net are undone at once where there is room, and it is then as at the start.
fn undoes_with_room<L: LinkStore>(alloc: Global, bench: &mut Bench<L>, net: &Net) -> Option<bool> {
    let reduced = reduces_with_room(alloc, bench) && prints(alloc, bench, net.end);
    let undone = undoes_all(bench, net.from_first)?;
    Some(reduced && undone && prints(alloc, bench, net.start))
}

/// Whether they are on a new bench.
fn undoes<L: LinkStore>(alloc: Global, net: &Net) -> Option<bool> {
    let mut bench = bench_at_last::<L>(alloc, net)?;
    undoes_with_room(alloc, &mut bench, net)
}

/// Whether they are over each net.
fn undoes_each<L: LinkStore>(alloc: Global) -> Option<bool> {
    let mut right = true;
    for net in NETS.iter() {
        right = right && undoes::<L>(alloc, net)?;
    }
    Some(right)
}

#[test]
fn over_the_table(rt: HostRuntime) -> Result<(), Fail> {
    assert_eq!(rt; undoes_each::<Store>(rt.alloc()), Some(true));
    Ok(())
}

#[test]
fn over_rows(rt: HostRuntime) -> Result<(), Fail> {
    assert_eq!(rt; undoes_each::<LinkRows>(rt.alloc()), Some(true));
    Ok(())
}
