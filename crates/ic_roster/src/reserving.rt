ghost use Rattle.std.specs.Prelude.{◌≡◌, ◌<◌, IfOk, OnOk};
ghost use Rattle.slab.specs.Slab.{HasRoomFor};

use slab::Slab;
use std::alloc::AllocError;

/// Makes room for one value more, and gives the slot that it will have, which fits in four bytes beside none. It is an
/// error where memory or slots run out.
pub(crate) fn reserve_slot<T>(slab: &mut Slab<T>) -> Result<u32, AllocError>
    ensures slot { IfOk result (λ slot. slab.new.vacant_key ≡ slot) }
    ensures small { IfOk result (λ slot. slot < u32.MAX) }
    ensures room { OnOk result (HasRoomFor slab.new 1) }
    ensures kept { slab.new.slots ≡ slab.old.slots }
{
    slab.reserve(1)?;
    match u32::try_from(slab.vacant_key()) {
        Ok(slot) if slot < u32::MAX => Ok(slot),
        _ => Err(AllocError),
    }
}
