ghost use Rattle.std.specs.Prelude.{◌≡◌, ◌≤◌, ◌∷◌, ◌↔◌, true, false, IsTrue, OnOk, OnErr};
ghost use Rattle.ic_path.specs.Orders.{Alike, IsIn};
ghost use Rattle.ic_path.specs.Links.{IsSlim, degree};
ghost use Rattle.ic_path.specs.FarEnds.{far};
ghost use Rattle.ic_path.specs.Rings.{rings};
ghost use Rattle.ic_name.specs.declared.ids.Link.{Link as ALink};
ghost use Rattle.ic_name.specs.declared.ids.Spot.{Spot as ASpot};
ghost use Rattle.ic_name.specs.Spots.{made_by};
ghost use Rattle.ic_link.specs.Links.{shape, CanAdd};

use crate::store::LinkStore;
use ic_name::{EventId, Link};
use std::alloc::AllocError;

/// Whether both ends of the link find room, as `add` wants it.
pub fn has_room<L: LinkStore>(store: &L, link: &Link) -> bool
    ensures { IsTrue result ↔ IsSlim shape (link.now ∷ L.links store.now) }
{
    store.lawful();
    let most = if link.a == link.b { 0 } else { 1 };
    store.degree(link.a) <= most && store.degree(link.b) <= most
}

/// Puts in a link of an event that has no other, and takes the event's links away again. What was before is restored:
/// the list up to order, and with it the number of rings and each far end. An error comes if memory runs out,
/// and then the list is the same.
pub fn there_and_back<L: LinkStore>(
    store: &mut L,
    link: Link,
    event: EventId,
) -> Result<(), AllocError>
    requires can { CanAdd (L.links store.old) link }
    requires made { made_by event link ≡ true }
    requires no_other { (l : ALink) → IsIn l (L.links store.old) → made_by event l ≡ false }
    ensures same { OnOk result (Alike (L.links store.old) (L.links store.new)) }
    ensures rings { OnOk result (rings shape (L.links store.new) ≡ rings shape (L.links store.old)) }
    ensures far_ends { OnOk result ((s : ASpot) → degree shape (L.links store.old) s ≤ 1 → far shape (L.links store.new) s ≡ far shape (L.links store.old) s) }
    ensures err { OnErr result (L.links store.new ≡ L.links store.old) }
{
    store.add(link)?;
    store.take_of(event);
    Ok(())
}
