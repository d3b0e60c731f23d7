ghost use Rattle.std.specs.Prelude.{◌≡◌, ◌++◌, List, map, IfOk, OnOk};
ghost use Rattle.std.specs.List.{flat_map};
ghost use Rattle.ic_text.specs.Lines.{lent_texts, with_free_wire};
ghost use Rattle.ic_text.specs.NetText.{free_line, free_wires};
ghost use Rattle.ic_name.specs.Names.{Name};
ghost use Rattle.ic_net.specs.Placed.{port_at, free_at};

use crate::print::put::text_of;
use ic_net::PlacedPort;
use ic_start::Texts;
use std::alloc::{AllocError, Global};
use std::collections::BTreeMap;

/// Enters the wire of a loose name, if its partner is a name too, and that name's text is the greater one.
fn enter_free_wire<'a>(
    wires: &mut BTreeMap<&'a [u8], &'a [u8]>,
    number: u32,
    partner: PlacedPort,
    names: &'a Texts,
) -> Result<(), AllocError>
    ensures { OnOk result ((ns : List Name) → map lent_texts wires.new.entries ≡ with_free_wire names.now (map lent_texts wires.old.entries) (number, port_at ns partner)) }
{
    match partner {
        PlacedPort::Of(..) => {}
        PlacedPort::Name(other) => {
            let near = text_of(names, number);
            let far = text_of(names, other);
            if near < far {
                wires.insert(near, far)?;
            }
        }
    }
    Ok(())
}

/// The wires between two free names: the greater text of each by its lesser text, in order.
fn free_wires_of<'a>(
    alloc: Global,
    frees: &[(u32, PlacedPort)],
    names: &'a Texts,
) -> Result<BTreeMap<&'a [u8], &'a [u8]>, AllocError>
    ensures { IfOk result (λ wires. (ns : List Name) → map lent_texts wires.entries ≡ free_wires names.now (map (free_at ns) frees.now)) }
{
    let mut wires = BTreeMap::new(alloc);
    for (number, partner) in frees {
        enter_free_wire(&mut wires, *number, *partner, names)?;
    }
    Ok(wires)
}

/// Writes the lines of the wires between two free names.
pub(crate) fn put_free_wires(
    out: &mut Vec<u8>,
    frees: &[(u32, PlacedPort)],
    names: &Texts,
) -> Result<(), AllocError>
    ensures { OnOk result ((ns : List Name) → out.new.items ≡ out.old.items ++ flat_map free_line (free_wires names.now (map (free_at ns) frees.now))) }
{
    let wires = free_wires_of(*out.allocator(), frees, names)?;
    for (near, far) in &wires {
        out.extend_from_slice(near)?;
        out.extend_from_slice(b" = ")?;
        out.extend_from_slice(far)?;
        out.extend_from_slice(b";\n")?;
    }
    Ok(())
}
