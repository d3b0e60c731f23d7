ghost use Rattle.std.specs.Prelude.{◌≡◌, Ok};
ghost use Rattle.ic_name.specs.Events.{Event};
ghost use Rattle.ic_name.specs.declared.ids.EventId.{EventId};
ghost use Rattle.ic_journal.specs.Views.{BenchView};
ghost use Rattle.ic_path.specs.Orders.{IsIn};
ghost use Rattle.ic_theory.specs.Starts.{Start};
ghost use Rattle.ic_roster.specs.Rosters.{Member, Stander};
ghost use Rattle.ic_journal.specs.Benches.{IsBench, Opens};
ghost use Rattle.ic_journal.specs.Calls.{Fires, Undoes};
ghost use Rattle.ic_journal.specs.Coming.{ComesTo};
ghost use Rattle.ic_journal.specs.Restored.{GivesBack};

/// An undo straight after its firing gives back what was there before: the same start, the same agents and events under
/// the ids that they had, and so the net, the rank of each event, and the journal.
pub fn fired_and_undone()
    ensures { (old mid new : BenchView) (e : Event) (id : EventId) → IsBench mid → Fires old e (Ok id) mid → Undoes mid id (Ok tt) new → GivesBack old new }
{}

/// A bench gives an id to one agent alone: whatever calls are made between two looks, the agents that are seen under one id have
/// one name.
pub fn one_agent_an_id()
    ensures { (s : Start) (opened old new : BenchView) (m n : Member) → Opens s opened → ComesTo opened old → IsBench old → ComesTo old new → IsIn m old.agents → IsIn n new.agents → m.id ≡ n.id → m.name ≡ n.name }
{}

/// A bench gives an id to one event alone: whatever calls are made between two looks, the events that are seen under ids of one
/// line are one event.
pub fn one_event_a_line()
    ensures { (s : Start) (opened old new : BenchView) (x y : Stander) → Opens s opened → ComesTo opened old → IsBench old → ComesTo old new → IsIn x old.events → IsIn y new.events → x.id.line ≡ y.id.line → x.event ≡ y.event }
{}
