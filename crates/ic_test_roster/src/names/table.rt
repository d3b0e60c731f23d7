ghost use Rattle.std.specs.Prelude.{◌<◌, length, IfSome};

use crate::name::deepest_name;
use ic_name::limits::MAX_DEPTH;
use ic_name::{AgentName, ChildFault};
use ic_names::{NameId, NameTable};
use std::alloc::Global;

/// Texts of names of several depths, of which many share their first 17 digits, and some their first 32 or more.
const NAMES: [&[u8]; 27] = [
    b"0",
    b"7",
    b"65534",
    b"0.0",
    b"0.3",
    b"7.0",
    b"7.1.2",
    b"12.3.0",
    b"7.1.2.3.0.1.2.3.0.1.2.3.0.1.2.3.0",
    b"7.1.2.3.0.1.2.3.0.1.2.3.0.1.2.3.0.1",
    b"7.1.2.3.0.1.2.3.0.1.2.3.0.1.2.3.0.2",
    b"8.1.2.3.0.1.2.3.0.1.2.3.0.1.2.3.0.1",
    b"7.1.2.3.0.1.2.3.0.1.2.3.0.1.2.3.0.1.0",
    b"7.1.2.3.0.1.2.3.0.1.2.3.0.1.2.3.0.1.3",
    b"8.1.2.3.0.1.2.3.0.1.2.3.0.1.2.3.0.1.2",
    b"7.1.2.3.0.1.2.3.0.1.2.3.0.1.2.3.0.1.0.3",
    b"7.1.2.3.0.1.2.3.0.1.2.3.0.1.2.3.0.1.1.0",
    b"7.1.2.3.0.1.2.3.0.1.2.3.0.1.2.3.0.1.1.2",
    b"7.1.2.3.0.1.2.3.0.1.2.3.0.1.2.3.0.2.0.0",
    b"8.1.2.3.0.1.2.3.0.1.2.3.0.1.2.3.0.1.1.1",
    b"7.1.2.3.0.1.2.3.0.1.2.3.0.1.2.3.0.1.2.3.0.1.2.3.0.1.2.3.0.1.2.3.0.0",
    b"7.1.2.3.0.1.2.3.0.1.2.3.0.1.2.3.0.1.2.3.0.1.2.3.0.1.2.3.0.1.2.3.0.3",
    b"7.1.2.3.0.1.2.3.0.1.2.3.0.1.2.3.0.1.2.3.0.1.2.3.0.1.2.3.0.1.2.3.0.0.1",
    b"7.1.2.3.0.1.2.3.0.1.2.3.0.1.2.3.0.1.2.3.0.1.2.3.1.1.2.3.0.1.2.3.0.0",
    b"7.1.2.3.0.1.2.3.0.1.2.3.0.1.2.3.0.1.2.3.0.1.2.3.0.1.2.3.0.1.2.3.0.0.0.0.0.0.0.0.0.0.0.0.0.0.0.0.0.0.0.0.0.0.0.0.0.0.0.0.0.0.0.0.0.1",
    b"7.1.2.3.0.1.2.3.0.1.2.3.0.1.2.3.0.1.2.3.0.1.2.3.0.1.2.3.0.1.2.3.0.0.0.0.0.0.0.0.0.0.0.0.0.0.0.0.0.0.0.0.0.0.0.0.0.0.0.0.0.0.0.0.0.2",
    b"7.1.2.3.0.1.2.3.0.1.2.3.0.1.2.3.0.1.2.3.0.1.2.3.0.1.2.3.0.1.2.3.0.0.0.0.0.0.0.0.0.0.0.0.0.0.0.0.0.0.0.0.0.0.0.0.0.0.0.0.0.0.0.0.3.0",
];

/// Where the name that a text writes is entered.
fn entered(alloc: Global, table: &mut NameTable, text: &[u8]) -> Option<NameId>
    ensures { IfSome result (λ id. id.place < length table.new) }
{
    let name = AgentName::read(alloc, text).ok()?;
    table.enter(&name).ok()
}

/// Enters the names. It is `false` where one can't be entered.
fn enter_all(alloc: Global, table: &mut NameTable) -> bool {
    for text in &NAMES {
        if entered(alloc, table, text).is_none() {
            return false;
        }
    }
    true
}

/// Whether the name that a text writes stands where it is found, and is read back from there as that text.
fn is_read_back(alloc: Global, table: &NameTable, text: &[u8]) -> Option<bool> {
    let name = AgentName::read(alloc, text).ok()?;
    let id = table.find(&name)?;
    Some(table.is(id, &name) && has_text(alloc, table, id, text) == Some(true))
}

/// Whether this is the text of the name at a place.
fn has_text(alloc: Global, table: &NameTable, id: NameId, text: &[u8]) -> Option<bool> {
    let found = table.name(id).ok()?;
    let mut written = Vec::new(alloc);
    found?.write_to(&mut written).ok()?;
    Some(written.as_slice() == text)
}

/// Whether all names are found in a table and read back, and no other one is found.
fn are_read_back(alloc: Global, table: &NameTable) -> bool {
    for text in &NAMES {
        if is_read_back(alloc, table, text) != Some(true) {
            return false;
        }
    }
    is_read_back(alloc, table, b"7.1.3").is_none()
}

/// Texts of names of 0, 1, 16, 17, 32, 33 and 70 digits.
const WRITTEN_NAMES: [&[u8]; 7] = [
    b"65534",
    b"0.3",
    b"10.2.2.0.3.1.0.1.0.2.3.1.3.0.1.0.1",
    b"10.2.2.0.3.1.0.1.0.2.3.1.3.0.1.0.1.3",
    b"7.3.1.0.1.0.2.3.1.3.0.1.0.1.3.2.1.3.1.0.1.3.1.1.0.0.1.1.1.1.2.2.1",
    b"7.3.1.0.1.0.2.3.1.3.0.1.0.1.3.2.1.3.1.0.1.3.1.1.0.0.1.1.1.1.2.2.1.1",
    b"12.2.2.0.3.1.0.1.0.2.3.1.3.0.1.0.1.3.2.1.3.1.0.1.3.1.1.0.0.1.1.1.1.2.2.1.1.1.1.3.2.0.2.3.1.1.2.0.2.2.0.2.0.2.2.2.3.2.1.3.3.1.0.2.0.2.3.0.3.2.3",
];

/// Whether the name that a text writes is entered, and written from its place as this text, after what stands there already.
fn is_written(alloc: Global, table: &mut NameTable, text: &[u8]) -> Option<bool> {
    let id = entered(alloc, table, text)?;
    let mut written = vec![in alloc; b'>'; 1].ok()?;
    table.write_to(id, &mut written).ok()?;
    Some(written.strip_prefix(b">") == Some(text))
}

#[test]
fn names_are_written_from_their_places(rt: HostRuntime) {
    let mut table = NameTable::new(rt.alloc());
    for text in &WRITTEN_NAMES {
        assert_eq!(rt; is_written(rt.alloc(), &mut table, text), Some(true));
    }
}

/// Whether the names that two texts write compare in the table as they do by themselves.
fn compare_alike(alloc: Global, table: &NameTable, a: &[u8], b: &[u8]) -> Option<bool> {
    let first = AgentName::read(alloc, a).ok()?;
    let second = AgentName::read(alloc, b).ok()?;
    compares_alike(table, &first, &second)
}

/// The same of two names.
fn compares_alike(table: &NameTable, first: &AgentName, second: &AgentName) -> Option<bool> {
    let one = table.find(first)?;
    let other = table.find(second)?;
    Some(table.cmp(one, other) == first.cmp(second))
}

/// Whether all names compare in the table as they do by themselves.
fn all_compare_alike(alloc: Global, table: &NameTable) -> bool {
    for a in &NAMES {
        for b in &NAMES {
            if compare_alike(alloc, table, a, b) != Some(true) {
                return false;
            }
        }
    }
    true
}

#[test]
fn names_are_entered_once_and_read_back_and_compare_as_by_themselves(rt: HostRuntime) {
    let mut table = NameTable::new(rt.alloc());
    assert!(rt; enter_all(rt.alloc(), &mut table));
    let names = table.len();
    assert!(rt; enter_all(rt.alloc(), &mut table));
    assert_eq!(rt; table.len(), names);
    assert!(rt; are_read_back(rt.alloc(), &table));
    assert!(rt; all_compare_alike(rt.alloc(), &table));
}

/// The place where the name that a text writes is entered.
fn place(alloc: Global, table: &mut NameTable, text: &[u8]) -> Option<u32> {
    Some(entered(alloc, table, text)?.place)
}

/// Texts of names that are entered in turn, each with its place.
const PLACES: [(&[u8], u32); 4] = [(b"5.0.1", 2), (b"3", 3), (b"5.0", 1), (b"5.0.2", 4)];

/// How many names a table has once these are entered, if each has its place.
fn len_in_order(alloc: Global, table: &mut NameTable) -> Option<usize> {
    for (text, wanted) in &PLACES {
        if place(alloc, table, text)? != *wanted {
            return None;
        }
    }
    Some(table.len())
}

#[test]
fn places_are_in_the_order_of_entering(rt: HostRuntime) {
    let mut table = NameTable::new(rt.alloc());
    assert_eq!(rt; len_in_order(rt.alloc(), &mut table), Some(5));
}

/// Whether no name is read at a place.
fn has_no_name(table: &NameTable, place: u32) -> Option<bool> {
    let name = table.name(NameId { place }).ok()?;
    Some(name.is_none())
}

/// Whether no name is read at place 0 of an empty table, and at place 2 of one of two names, of which this is the last.
fn ends_behind(alloc: Global, table: &mut NameTable) -> Option<bool> {
    let empty = has_no_name(table, 0)?;
    let last = place(alloc, table, b"0.3")?;
    let ended = !has_no_name(table, 1)? && has_no_name(table, 2)?;
    Some(empty && last == 1 && ended)
}

#[test]
fn places_beyond_the_names_have_none(rt: HostRuntime) {
    let mut table = NameTable::new(rt.alloc());
    assert_eq!(rt; ends_behind(rt.alloc(), &mut table), Some(true));
}

/// Whether the child of agent 7 with a digit comes into the table, and is then the one that is found.
fn child_comes(alloc: Global, table: &mut NameTable, digit: u8) -> Option<bool>
    requires { digit < 4 }
{
    let name = AgentName::start(alloc, 7)?;
    let child = name.child(digit).ok()?;
    comes_in(table, &name, digit, &child)
}

/// The same of a name and its child.
fn comes_in(table: &mut NameTable, name: &AgentName, digit: u8, child: &AgentName) -> Option<bool>
    requires { digit < 4 }
{
    let Ok(parent) = table.enter(name) else {
        return None;
    };
    let absent = table.child(parent, digit).is_none();
    let id = table.enter_child(parent, digit).ok()?;
    Some(absent && table.find(child) == Some(id))
}

/// How many names a table has once each child of agent 7 came into it, if each came once.
fn len_of_children(alloc: Global, table: &mut NameTable) -> Option<usize> {
    for digit in 0..4 {
        if !child_comes(alloc, table, digit)? || child_comes(alloc, table, digit)? {
            return None;
        }
    }
    Some(table.len())
}

#[test]
fn children_come_once(rt: HostRuntime) {
    let mut table = NameTable::new(rt.alloc());
    assert_eq!(rt; len_of_children(rt.alloc(), &mut table), Some(5));
}

/// The depth of the deepest name in a table, and why it has no child 0 there.
fn depth_and_fault(alloc: Global, table: &mut NameTable) -> Option<(usize, ChildFault)> {
    let name = deepest_name(alloc)?;
    let Ok(id) = table.enter(&name) else {
        return None;
    };
    let depth = table.depth(id);
    let fault = table.enter_child(id, 0).err()?;
    Some((depth, fault))
}

#[test]
fn children_in_a_table_end_at_the_greatest_depth(rt: HostRuntime) {
    let mut table = NameTable::new(rt.alloc());
    assert_eq!(rt;
        depth_and_fault(rt.alloc(), &mut table),
        Some((MAX_DEPTH, ChildFault::Deep))
    );
}
