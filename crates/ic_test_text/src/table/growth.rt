use crate::table::paths::put;
use ic_link::{Far, LinkStore};
use ic_name::Spot;
use ic_table::PortTable;

/// What a table answers of three names, and of its rings.
#[derive(Clone, Copy, PartialEq, Eq)]
struct Seen {
    degrees: [u8; 3],
    fars: [Far; 3],
    rings: u64,
}

impl Seen {
    fn of(table: &PortTable, names: [u32; 3]) -> Seen {
        let [a, b, c] = names;
        let (a, b, c) = (Spot::Name(a), Spot::Name(b), Spot::Name(c));
        Seen {
            degrees: [table.degree(a), table.degree(b), table.degree(c)],
            fars: [table.far(a), table.far(b), table.far(c)],
            rings: table.rings(),
        }
    }
}

/// Puts in a link between two names, where more link ends are then. Where memory runs out, the table answers as before,
/// and takes it the next time.
fn put_at_last(table: &mut PortTable, line: u32, a: u32, b: u32) -> bool {
    let row = (line, 0, a, b);
    let before = Seen::of(table, [0, a, b]);
    if !put(table, row) && !(Seen::of(table, [0, a, b]) == before && put(table, row)) {
        return false;
    }
    let [_, at_a, at_b] = before.degrees;
    table.degree(Spot::Name(a)) > at_a && table.degree(Spot::Name(b)) > at_b
}

/// Whether a path of a hundred links grows so, and is closed to a ring.
fn grows(table: &mut PortTable) -> bool {
    for k in 0..100 {
        if !put_at_last(table, k, k, k + 1)
            || table.far(Spot::Name(0)) != Far::End(Spot::Name(k + 1))
        {
            return false;
        }
    }
    put_at_last(table, 100, 100, 0) && table.rings() == 1
}

#[test]
fn a_refused_growth_leaves_the_list(rt: HostRuntime) {
    let mut table = PortTable::empty(rt.alloc());
    assert!(rt; grows(&mut table));
}
