ghost use Rattle.std.specs.Prelude.{◌≡◌, ◌<◌, ◌≤◌, ◌↔◌, ◌++◌, ◌∷◌, [], ℕ, length, IsTrue, IfOk, OnOk};
ghost use Rattle.ic_names.specs.Tables.{name_at};
ghost use Rattle.ic_names.specs.Rows.{name_from, IsBefore};

use crate::entry::Origin;
use crate::rows::Rows;
use std::alloc::{AllocError, Global};
use std::marker::Model;

/// The names of a table as it was at some time, by place. Each takes 8 bytes: where it comes from.
#[derive(Drop)]
pub struct KnownNames {
    origins: Vec<Origin>,
}

impl Model for KnownNames {
    ghost use Rattle.std.specs.Prelude.{List};
    ghost use Rattle.ic_name.specs.Names.{Name};
    ghost use Rattle.ic_names.specs.Known.{AreTold, names_told};

    ghost Value = { List Name };

    ghost view = { λ k. names_told k.origins.items };

    ghost invariant = { λ k. AreTold k.origins.items };
}

impl KnownNames {
    /// No names. It takes no memory.
    pub fn none(alloc: Global) -> KnownNames
        ensures { result ≡ [] }
    {
        KnownNames {
            origins: Vec::new(alloc),
        }
    }

    /// The names that are in these rows. At an error memory ran out.
    pub(crate) fn of(rows: &Rows, alloc: Global) -> Result<KnownNames, AllocError>
        ensures { IfOk result (λ known. known ≡ rows.now.names) }
    {
        rows.lawful();
        let mut known = KnownNames {
            origins: Vec::with_capacity(alloc, rows.name_count())?,
        };
        for place in 0..rows.name_count() {
            known.push(rows.origin(place as u32))?;
        }
        Ok(known)
    }

    /// Adds the name of this origin at the end. At an error memory ran out.
    fn push(&mut self, origin: Origin) -> Result<(), AllocError>
        requires { IsBefore (length self.old) origin }
        ensures { OnOk result (self.new ≡ self.old ++ name_from self.old origin ∷ []) }
    {
        self.origins.push(origin)?;
        Ok(())
    }

    /// Where the name at a place comes from.
    fn origin(&self, place: u32) -> Origin
        requires { place < length self.now }
        ensures named { name_at self.now place ≡ name_from self.now result }
        ensures before { IsBefore place result }
    {
        self.origins[place as usize]
    }

    /// How many places from the first one on have the same names in these rows, in time that grows as their number. It takes no
    /// memory.
    pub(crate) fn same(&self, rows: &Rows) -> usize
        ensures here { result ≤ length rows.now.names }
        ensures then { result ≤ length self.now }
        ensures same { (k : ℕ) → k < result → name_at rows.now.names k ≡ name_at self.now k }
    {
        rows.lawful();
        let most = rows.name_count().min(self.origins.len());
        for place in 0..most {
            if rows.origin(place as u32) != self.origin(place as u32) {
                return place;
            }
        }
        most
    }

    /// Whether the name at a place of these rows is the known one at another place, where so many places from the first one on
    /// have the same names: in constant time where the other place is one of these, and else in time that grows as the depth.
    /// It takes no memory.
    pub(crate) fn is(&self, known: u32, rows: &Rows, place: u32, same: usize) -> bool
        requires here { place < length rows.now.names }
        requires then { known < length self.now }
        requires same { (k : ℕ) → k < same → name_at rows.now.names k ≡ name_at self.now k }
        ensures { IsTrue result ↔ (name_at rows.now.names place ≡ name_at self.now known) }
    {
        rows.lawful();
        let same = same.min(rows.name_count());
        let mut here = place;
        let mut then = known;
        while then as usize >= same {
            match (rows.origin(here), self.origin(then)) {
                (Origin::Start(number), Origin::Start(other)) => return number == other,
                (
                    Origin::Child { digit, parent },
                    Origin::Child {
                        digit: other,
                        parent: above,
                    },
                ) => {
                    if digit != other {
                        return false;
                    }
                    here = parent;
                    then = above;
                }
                _ => return false,
            }
        }
        here == then
    }
}
