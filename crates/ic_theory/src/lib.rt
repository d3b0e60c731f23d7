//! Interactions as events over a start: the nets that sets of events leave, the steps, and the machine, with laws.
#![tactic(auto)]

ghost use Rattle.std.specs.Prelude.{◌≡◌, ◌≢◌, ◌+◌, ◌<◌, ℕ, ◌⊎◌, ◌↔◌, List, [], ◌∷◌, ◌++◌, length, Some};
ghost use Rattle.ic_name.specs.Names.{Name};
ghost use Rattle.ic_name.specs.Events.{Event};
ghost use Rattle.ic_name.specs.declared.lines.Call.{Call};
ghost use Rattle.ic_name.specs.declared.lines.Call.TheVariants.{Fire, Undo};
ghost use Rattle.ic_name.specs.declared.lines.Line.{Line};
ghost use Rattle.ic_name.specs.declared.lines.Reply.{Reply};
ghost use Rattle.ic_name.specs.declared.lines.Reply.TheVariants.{Fired, Undone};
ghost use Rattle.ic_name.specs.declared.ports.Port.{Port};
ghost use Rattle.ic_path.specs.Orders.{IsIn, Alike};
ghost use Rattle.ic_path.specs.Rings.{IsOrder, IsSeal, HasEachOnce};
ghost use Rattle.ic_theory.specs.Starts.{Start, IsProper, net_shape};
ghost use Rattle.ic_theory.specs.Born.{Link};
ghost use Rattle.ic_theory.specs.Sets.{links, Consumes};
ghost use Rattle.ic_theory.specs.Seals.{comes_before};
ghost use Rattle.ic_theory.specs.Wires.{IsLoose, IsWire};
ghost use Rattle.ic_theory.specs.Active.{IsActive};
ghost use Rattle.ic_theory.specs.Causes.{IsCause, IsRank};
ghost use Rattle.ic_theory.specs.CausalOrders.{IsCausalOrder, AreIndependent, Reorders, EndTogether, ReordersToCanonical};
ghost use Rattle.ic_theory.specs.Sound.{IsSound};
ghost use Rattle.ic_theory.specs.Nets.{IsSameNet, net_of};
ghost use Rattle.ic_theory.specs.Steps.{Meets, plain_step, steps, AreDefined, EndIn};
ghost use Rattle.ic_theory.specs.Firings.{IsFired, AreAfterCauses, then_fired};
ghost use Rattle.ic_theory.specs.Future.{Union, Includes, Unites};
ghost use Rattle.ic_theory.specs.Exchanges.{Exchanges, ReachesCanonical};
ghost use Rattle.ic_theory.specs.Letters.{Letter, Runs, AreEquivalent};
ghost use Rattle.ic_theory.specs.Machine.{Standing, State, events, MachineStep, IsHistory, FiredAfter, FiredAndUndone, SomeIsUndone};

/// Each loose port has a partner: the other end of its wire, another port, whose partner it is.
pub fn wires()
    ensures loose { (s : Start) (es : List Event) (p : Port) → IsProper s → IsFired s es → IsLoose s es p → (q : Port) × ((net_of s es).partner p ≡ Some q) }
    ensures back { (s : Start) (es : List Event) (p q : Port) → IsProper s → IsFired s es → (net_of s es).partner p ≡ Some q → (q ≢ p) × ((net_of s es).partner q ≡ Some p) }
    ensures ends { (s : Start) (es : List Event) (p q : Port) → IsProper s → IsFired s es → (net_of s es).partner p ≡ Some q ↔ IsWire s es p q }
{}

/// The net of a sound set has as many rings as there are seals, links through which a closed trail goes that goes
/// through no link before it. The links of the set stand in one order, no two of them level: those of the start first,
/// by place, then those of events by lead, other agent and place. There is a list that has each seal once, and each
/// such list is as long as the net has rings.
pub fn seals()
    ensures listed { (s : Start) (es : List Event) → IsProper s → IsSound s es → (list : List Link) × HasEachOnce (IsSeal net_shape comes_before (links s es)) list }
    ensures counted { (s : Start) (es : List Event) (list : List Link) → IsProper s → IsSound s es → HasEachOnce (IsSeal net_shape comes_before (links s es)) list → length list ≡ (net_of s es).rings }
    ensures ordered { (s : Start) (es : List Event) → IsProper s → IsSound s es → IsOrder comes_before (links s es) }
{}

/// A plain step is defined for the active events, and gives the net of the set with that event.
pub fn steps_agree()
    ensures defined { (s : Start) (es : List Event) (e : Event) → IsProper s → IsFired s es → IsActive s es e ↔ Meets (net_of s es) e }
    ensures same { (s : Start) (es : List Event) (e : Event) → IsProper s → IsFired s es → IsActive s es e → IsSameNet (plain_step (net_of s es) e) (net_of s (e ∷ es)) }
{}

/// Steps are defined along the causal orders of sound sets and along no other list, and end in the net of the set. So
/// whatever causal order of a sound set they take, they are defined, and end in the one net of that set.
pub fn orders()
    ensures defined { (s : Start) (list : List Event) → IsProper s → AreDefined (net_of s []) list ↔ IsCausalOrder s list }
    ensures ends { (s : Start) (list : List Event) → IsProper s → AreDefined (net_of s []) list → steps (net_of s []) list ≡ net_of s (then_fired [] list) }
    ensures every { (s : Start) (es list : List Event) → IsProper s → IsSound s es → let set = then_fired [] list in Alike es set → AreAfterCauses s set set → EndIn (net_of s []) list (net_of s es) }
{}

/// Of two firings over one start there is a common one, and events of both that share an agent are one.
pub fn one_future()
    ensures union { (s : Start) (es fs : List Event) → IsProper s → IsFired s es → IsFired s fs → Union s es fs }
    ensures partner { (s : Start) (es fs : List Event) (e f : Event) (n : Name) → IsProper s → IsFired s es → IsFired s fs → IsIn e es → IsIn f fs → Consumes e n → Consumes f n → e ≡ f }
{}

/// A firing leaves a sound set, and each sound set can be fired in some order. In any order the set is sound, and gives
/// one net; fired are those of its orders, and no others, in which each event comes after its direct causes. Of two sound
/// sets there is a sound set with the events of both and no others, and in it an event has the causes that it had.
pub fn sound_sets()
    ensures left { (s : Start) (es : List Event) → IsProper s → IsFired s es → IsSound s es }
    ensures fired { (s : Start) (es : List Event) → IsProper s → IsSound s es → (order : List Event) × Alike es order × IsFired s order }
    ensures firing { (s : Start) (es : List Event) → IsProper s → IsFired s es ↔ (IsSound s es × AreAfterCauses s es es) }
    ensures order { (s : Start) (es fs : List Event) → IsProper s → IsSound s es → Alike es fs → IsSound s fs }
    ensures net { (s : Start) (es fs : List Event) → IsProper s → IsSound s es → Alike es fs → IsSameNet (net_of s es) (net_of s fs) }
    ensures union { (s : Start) (es fs : List Event) → IsProper s → IsSound s es → IsSound s fs → (all : List Event) × IsSound s all × Unites all es fs }
    ensures causes { (s : Start) (all es : List Event) (e c : Event) → IsProper s → IsSound s all → Includes all es → IsSound s es → IsIn e es → IsCause s all e c ↔ IsCause s es e c }
{}

/// Neighbours in a firing, wherever they stand, change places where the earlier is no direct cause of the later, and
/// the list is a firing still; whichever way round they stand, the net is the same, its rings included. Exchanges of
/// neighbours of which neither is a direct cause of the other lead from a firing only to firings of the same events
/// with the same net, and by them any firing reaches the canonical order of its events.
pub fn exchange()
    ensures fired { (s : Start) (later es : List Event) (e f : Event) → IsProper s → IsFired s (later ++ f ∷ e ∷ es) → (IsCause s (f ∷ e ∷ es) f e → ⊥) → IsFired s (later ++ e ∷ f ∷ es) }
    ensures net { (s : Start) (later es : List Event) (e f : Event) → IsProper s → IsFired s (later ++ f ∷ e ∷ es) → IsSameNet (net_of s (later ++ f ∷ e ∷ es)) (net_of s (later ++ e ∷ f ∷ es)) }
    ensures along { (s : Start) (es gs : List Event) → IsProper s → IsFired s es → Exchanges s es gs → IsFired s gs × IsSameNet (net_of s es) (net_of s gs) × Alike es gs }
    ensures canonical { (s : Start) (es : List Event) (rank : Event → ℕ) → IsProper s → IsFired s es → IsRank s es rank → ReachesCanonical s rank es }
{}

/// Neighbours in a causal order of which neither is a direct cause of the other change places, and the list is a causal
/// order still; the steps along both end in the same net. So it is along exchanges in any number, and by them any causal
/// order reaches the canonical order of its events.
pub fn causal_orders()
    ensures exchanged { (s : Start) (front back : List Event) (e f : Event) → IsProper s → let list = front ++ e ∷ f ∷ back in let order = front ++ f ∷ e ∷ back in
        IsCausalOrder s list → AreIndependent s (then_fired [] list) e f → IsCausalOrder s order × EndTogether s list order }
    ensures along { (s : Start) (list order : List Event) → IsProper s → IsCausalOrder s list → Reorders s (then_fired [] list) list order
        → IsCausalOrder s order × EndTogether s list order × Alike list order }
    ensures canonical { (s : Start) (list : List Event) (rank : Event → ℕ) → IsProper s → IsCausalOrder s list → IsRank s (then_fired [] list) rank → ReordersToCanonical s rank list }
{}

/// A sound set in which no pair is active has every sound set over its start as a part, and two such sets are one.
pub fn normal_ends()
    ensures part { (s : Start) (es fs : List Event) → IsProper s → IsSound s es → IsSound s fs → ((e : Event) → IsActive s fs e → ⊥) → Includes fs es }
    ensures one { (s : Start) (es fs : List Event) → IsProper s → IsSound s es → IsSound s fs → ((e : Event) → IsActive s es e → ⊥) → ((e : Event) → IsActive s fs e → ⊥) → Alike es fs }
{}

/// Two legal lists of letters over one start are equivalent exactly where their standing sets are equal.
pub fn consistency()
    ensures equal_sets { (s : Start) (fs gs : List Event) (ls ms : List Letter) → IsProper s → Runs s [] ls fs → Runs s [] ms gs → AreEquivalent s ls ms ↔ Alike fs gs }
{}

/// What stands after a legal history is sound, each event with the number of a line of its own, and it determines
/// what a call answers and what stands then, up to order.
pub fn machine()
    ensures sound { (s : Start) (lines : List Line) (st : State) → IsProper s → IsHistory s lines st → IsSound s (events st) }
    ensures count { (s : Start) (lines : List Line) (st : State) → IsHistory s lines st → st.lines ≡ length lines }
    ensures below { (s : Start) (lines : List Line) (st : State) (x : Standing) → IsProper s → IsHistory s lines st → IsIn x st.standing → x.line < st.lines }
    ensures own { (s : Start) (lines : List Line) (st : State) (x y : Standing) → IsProper s → IsHistory s lines st → IsIn x st.standing → IsIn y st.standing → x.line ≡ y.line → x ≡ y }
    ensures reply { (s : Start) (lines : List Line) (st a a' : State) (call : Call) (r r' : Reply) → IsProper s → IsHistory s lines st → MachineStep s st call r a
        → MachineStep s st call r' a' → r ≡ r' }
    ensures standing { (s : Start) (lines : List Line) (st a a' : State) (call : Call) (r r' : Reply) → IsProper s → IsHistory s lines st → MachineStep s st call r a
        → MachineStep s st call r' a' → Alike a.standing a'.standing }
{}

/// A refused call changes nothing that stands, and so not the net.
pub fn refusals()
    ensures { (s : Start) (st next : State) (call : Call) (reply : Reply) → MachineStep s st call reply next → reply ≢ Fired → reply ≢ Undone → next.standing ≡ st.standing }
{}

/// A firing can be undone at once, and this restores what was before: what stands, the net, and each event's rank.
pub fn undone_at_once()
    ensures accepted { (s : Start) (lines : List Line) (st mid : State) (e : Event) → IsProper s → FiredAfter s lines st e mid
        → MachineStep s mid (Undo st.lines) Undone (record st { lines = mid.lines + 1 }) }
    ensures standing { (s : Start) (lines : List Line) (st next : State) (e : Event) → IsProper s → FiredAndUndone s lines st e next → Alike st.standing next.standing }
    ensures net { (s : Start) (lines : List Line) (st next : State) (e : Event) → IsProper s → FiredAndUndone s lines st e next → IsSameNet (net_of s (events st)) (net_of s (events next)) }
    ensures ranks { (s : Start) (lines : List Line) (st next : State) (e : Event) (rank : Event → ℕ) → IsProper s → FiredAndUndone s lines st e next
        → IsRank s (events st) rank → IsRank s (events next) rank }
{}

/// While anything stands, some event of it can be undone; so undoing goes on down to the start.
pub fn something_undone()
    ensures { (s : Start) (lines : List Line) (st : State) → IsProper s → IsHistory s lines st → (st.standing ≡ [] → ⊥) → SomeIsUndone s st }
{}
