ghost use Rattle.std.specs.Prelude.{◌≤◌, ◌*◌, ◌+◌, ◌↔◌, IsTrue};

/// Whether rows that are numbered from 0 on may grow to hold this number: a single great number isn't to take much
/// memory.
pub fn is_near(number: u32, rows: usize) -> bool
    ensures { IsTrue result ↔ (number ≤ 2 * rows + 64) }
{
    number as usize <= rows.saturating_mul(2).saturating_add(64)
}
