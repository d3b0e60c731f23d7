// All links of events go at once, and those of the start stay.
ghost use Rattle.std.specs.Prelude.{OnOk};
ghost use Rattle.ic_test_text.specs.Stores.{AreSame};

use crate::table::paths::link;
use crate::table::side_by_side::{Both, agree};
use ic_link::{Far, LinkStore};
use ic_name::{Link, LinkId, MakerId, Spot};
use ic_table::PortTable;
use std::alloc::{AllocError, Global};
use std::test::Fail;

/// A link of the start between two names.
fn start_link(place: u32, a: u32, b: u32) -> Link {
    Link {
        id: LinkId {
            maker: MakerId::Start,
            place,
        },
        a: Spot::Name(a),
        b: Spot::Name(b),
    }
}

/// What a table of the start answers of each name: the names 0 and 1 are on a ring, and 2 and 3 are the ends of a path.
const FARS: [(u32, Far); 8] = [
    (0, Far::Joint),
    (1, Far::Joint),
    (2, Far::End(Spot::Name(3))),
    (3, Far::End(Spot::Name(2))),
    (4, Far::Bare),
    (5, Far::Bare),
    (6, Far::Bare),
    (7, Far::Bare),
];

/// Whether a table answers so.
fn is_the_start(table: &PortTable) -> bool {
    for (name, far) in &FARS {
        if table.far(Spot::Name(*name)) != *far {
            return false;
        }
    }
    table.rings() == 1
}

/// Takes the links of all events. Whether both stores then answer as those of the start do.
fn are_taken(alloc: Global, both: &mut Both) -> Result<bool, AllocError>
    requires { AreSame both.old.table.links both.old.rows both.old.ids.items }
    ensures { OnOk result (AreSame both.new.table.links both.new.rows both.new.ids.items) }
{
    both.take_all(alloc)?;
    Ok(agree(alloc, &both.table, &both.rows) && is_the_start(&both.table))
}

/// The links of the start. An event closes the path to a ring, and another one makes a path. Then one link is put in again.
fn are_taken_twice(alloc: Global, both: &mut Both) -> Result<bool, AllocError>
    requires { AreSame both.old.table.links both.old.rows both.old.ids.items }
{
    both.put(start_link(0, 0, 1))?;
    both.put(start_link(1, 1, 0))?;
    both.put(start_link(2, 2, 3))?;
    both.put(link((1, 0, 3, 4)))?;
    both.put(link((1, 1, 4, 2)))?;
    both.put(link((2, 0, 5, 6)))?;
    both.put(link((2, 1, 6, 7)))?;
    let closed = both.table.rings() == 2;
    let many = are_taken(alloc, both)?;
    both.put(link((3, 0, 3, 4)))?;
    let again = both.table.far(Spot::Name(2)) == Far::End(Spot::Name(4));
    let few = are_taken(alloc, both)?;
    Ok(closed && many && again && few)
}

#[test]
fn the_links_of_the_start_stay(rt: HostRuntime) -> Result<(), Fail> {
    let mut both = Both::empty(rt.alloc());
    assert!(rt; are_taken_twice(rt.alloc(), &mut both)?);
    Ok(())
}
