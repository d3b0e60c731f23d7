//! Links by ids, and the links of the set of events that they show.

ghost use Rattle.std.specs.Prelude.{◌≡◌, ◌↔◌, true, List, ◌∷◌, ◌++◌, map, Some};
ghost use Rattle.ic_name.specs.Events.{Event};
ghost use Rattle.ic_name.specs.declared.ids.AgentId.{AgentId};
ghost use Rattle.ic_name.specs.declared.ids.EventId.{EventId};
ghost use Rattle.ic_name.specs.declared.ids.Link.{Link};
ghost use Rattle.ic_name.specs.declared.ids.LinkId.{LinkId};
ghost use Rattle.ic_name.specs.declared.ids.Spot.{Spot};
ghost use Rattle.ic_name.specs.declared.ids.Spot.TheVariants as spot;
ghost use Rattle.ic_path.specs.Links.{degree};
ghost use Rattle.ic_path.specs.Orders.{IsIn, Pick, Alike};
ghost use Rattle.ic_path.specs.Rings.{rings};
ghost use Rattle.ic_link.specs.Links.{shape, Joins, Drops};
ghost use Rattle.ic_theory.specs.Starts.{Start, IsProper, net_shape};
ghost use Rattle.ic_theory.specs.Born.{born_links};
ghost use Rattle.ic_theory.specs.Sets.{links};
ghost use Rattle.ic_theory.specs.Sound.{IsSound};
ghost use Rattle.ic_theory.specs.Causes.{IsCause};
ghost use Rattle.ic_theory.specs.Nets.{net_of};
ghost use Rattle.ic_theory.specs.Wires.{IsLoose};
ghost use Rattle.ic_cause.specs.Makers.{IsMakerIn};
ghost use Rattle.ic_cause.specs.Naming.{Naming, TellsApart, Extends, IsHeld, has_spot, port_of, link_of};
ghost use Rattle.ic_cause.specs.Shown.{Shows};

/// A spot has as many link ends as the port that it stands for, and there are as many rings.
pub fn degrees()
    ensures degree { (n : Naming) (s : Start) (es : List Event) (ls : List Link) (p : Spot) → Shows n s es ls → has_spot n p ≡ true → degree shape ls p ≡ degree net_shape (links s es) (port_of n p) }
    ensures rings { (n : Naming) (s : Start) (es : List Event) (ls : List Link) → IsProper s → IsSound s es → Shows n s es ls → rings shape ls ≡ rings net_shape (links s es) }
{}

/// A path that can't go on leads from the spot of a loose port to that of its partner.
pub fn partners()
    ensures { (n : Naming) (s : Start) (es : List Event) (ls : List Link) (p q : Spot) (ids : List LinkId) → IsProper s → IsSound s es → Shows n s es ls
        → has_spot n p ≡ true → IsLoose s es (port_of n p) → Joins ls p ids q
        → has_spot n q ≡ true × ((net_of s es).partner (port_of n p) ≡ Some (port_of n q)) }
{}

/// The events that made the links of the path between the principal ports of an event's agents are its direct causes.
pub fn causes()
    ensures { (n : Naming) (s : Start) (es : List Event) (ls : List Link) (a b : AgentId) (ids : List LinkId) (e c : Event) → IsProper s → IsSound s es → Shows n s es ls
        → n.agent a ≡ e.lead → n.agent b ≡ e.other → Joins ls (spot.Agent a 0) ids (spot.Agent b 0) → IsCause s es e c ↔ IsMakerIn n ids c }
{}

/// If the links of an event are added, under ids that are held by then, the links of the set with it are shown.
pub fn fired()
    ensures { (n more : Naming) (s : Start) (es : List Event) (ls new all : List Link) (e : Event) → Shows n s es ls → Extends n more
        → TellsApart more → ((l : Link) → IsIn l new → IsHeld more l) → map (link_of more) new ≡ born_links s.profile e → Alike (new ++ ls) all → Shows more s (e ∷ es) all }
{}

/// If all links that an event made are taken out, those of the set without it are shown, even if ids are given up that no link
/// that is left has.
pub fn undone()
    ensures { (n less : Naming) (s : Start) (es rest : List Event) (ls left : List Link) (d : EventId) (e : Event) → IsSound s es → Shows n s es ls
        → n.has_event d ≡ true → n.event d ≡ e → Pick e es rest → Drops d ls left → Extends less n → ((l : Link) → IsIn l left → IsHeld less l) → Shows less s rest left }
{}
