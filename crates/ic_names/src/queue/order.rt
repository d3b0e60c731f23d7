ghost use Rattle.std.specs.Prelude.{◌≡◌, ◌↔◌, IsTrue};
ghost use Rattle.std.specs.declared.cmp.Ordering.TheVariants.{Less};
ghost use Rattle.ic_name.specs.Names.{name_cmp};
ghost use Rattle.ic_names.specs.Tables.{name_at};
ghost use Rattle.ic_names.specs.Queues.{IsNamed};

use crate::NameTable;
use crate::queue::Lead;

/// Whether the name of the first lead comes before that of the second. It asks the table only if their keys are equal.
pub fn comes_before(names: &NameTable, first: Lead, second: Lead) -> bool
    requires first { IsNamed names.now first }
    requires second { IsNamed names.now second }
    ensures { IsTrue result ↔ (name_cmp (name_at names.now first.name.place) (name_at names.now second.name.place) ≡ Less) }
{
    names.lawful();
    let left = first.key.number();
    let right = second.key.number();
    if left != right {
        return left < right;
    }
    names.cmp(first.name, second.name).is_lt()
}
