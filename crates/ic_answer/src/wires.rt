ghost use Rattle.std.specs.Prelude.{◌≡◌, ◌≢◌, ◌++◌, ℕ, List, All, map, slice_get, IfNone, IfOk, IfSome, MatchOption, OnOk, Some};
ghost use Rattle.ic_name.specs.declared.ports.Port.{Port as APort};
ghost use Rattle.ic_path.specs.Orders.{IsIn};
ghost use Rattle.ic_roster.specs.Rosters.{Stander};
ghost use Rattle.ic_set.specs.Views.{events_of};
ghost use Rattle.ic_theory.specs.Machine.{State, events};
ghost use Rattle.ic_journal.specs.Benches.{IsAt};
ghost use Rattle.ic_command.specs.declared.question.Question.TheVariants as question;
ghost use Rattle.ic_answer.specs.BenchQuestions.{InformsOf};
ghost use Rattle.ic_answer.specs.Texts.{answer_text};
ghost use Rattle.ic_answer.specs.Wired.{IsFirstCalled, IsPlaceOf, TellsWire, port_text, wire_head, wire_text};

use crate::answer::Answer;
use crate::refused::Refused;
use crate::why::push_events;
use ic_command::Place;
use ic_journal::{Bench, LinkStore};
use ic_name::Port;
use ic_set::Wire;
use ic_start::{Start, Texts};
use std::alloc::{AllocError, Global};

/// The other end of the wire at a place, and the standing events that made it.
pub fn tell_wire<L: LinkStore>(
    alloc: Global,
    bench: &Bench<L>,
    place: Place,
) -> Result<Answer, AllocError>
    ensures { IfOk result (λ answer. InformsOf bench.now (question.Wire place) (answer_text answer)) }
{
    match port_of(bench.start(), place) {
        Some(port) => tell_wire_at(alloc, bench, &port),
        None => Ok(Answer::Refused(Refused::NoPort)),
    }
}

/// The port that a place names; `None` if no name of the text is called so.
fn port_of(start: &Start, place: Place) -> Option<Port>
    ensures { MatchOption result ((p : APort) → ¬ (IsPlaceOf start.now place p)) (λ port. IsPlaceOf start.now place port) }
{
    match place {
        Place::Port(agent, number) => Some(Port::Of(agent, number)),
        Place::Free(name) => match number_of(start, name.bytes()) {
            Some(number) => Some(Port::Name(number)),
            None => None,
        },
    }
}

/// The number of the first name of the text that is called so.
fn number_of(start: &Start, called: &[u8]) -> Option<u32>
    ensures found { IfSome result (λ number. IsFirstCalled start.now.names called.now number) }
    ensures absent { IfNone result ((j : ℕ) → slice_get start.now.names j ≢ Some called.now) }
{
    start.lawful();
    let names = start.names();
    for number in 0..names.len() {
        if names.get(number) == Some(called) {
            return Some(number as u32);
        }
    }
    None
}

/// The other end of the wire at a port, and the standing events that made it.
fn tell_wire_at<L: LinkStore>(
    alloc: Global,
    bench: &Bench<L>,
    port: &Port,
) -> Result<Answer, AllocError>
    ensures { IfOk result (λ answer. (st : State) → IsAt bench.now st → TellsWire bench.now.start (events st) port.now (answer_text answer)) }
{
    bench.lawful();
    match bench.wire(port)? {
        Some(wire) => Ok(Answer::Text(wire_text(alloc, bench, port, &wire)?)),
        None => Ok(Answer::Refused(Refused::NoPort)),
    }
}

/// The text of the wire at a port.
fn wire_text<L: LinkStore>(
    alloc: Global,
    bench: &Bench<L>,
    port: &Port,
    wire: &Wire,
) -> Result<Vec<u8>, AllocError>
    ensures { IfOk result (λ text. (order : List Stander) → All (λ x. IsIn x bench.now.events) order → map (λ x. x.id) order ≡ wire.now.makers.items → text.items ≡ wire_text bench.now.start.names port.now wire.now.far (events_of order)) }
{
    let mut text = head_of(
        alloc,
        bench.start().names(),
        port,
        &wire.far,
        wire.makers.len(),
    )?;
    push_events(bench, &mut text, &wire.makers)?;
    Ok(text)
}

/// The line of a wire between two ports that so many events made.
fn head_of(
    alloc: Global,
    names: &Texts,
    near: &Port,
    far: &Port,
    makers: usize,
) -> Result<Vec<u8>, AllocError>
    ensures { IfOk result (λ text. text.items ≡ wire_head names.now near.now far.now makers) }
{
    let mut text = Vec::from_slice(alloc, b"wire ")?;
    push_port(alloc, names, &mut text, near)?;
    text.extend_from_slice(b" to ")?;
    push_port(alloc, names, &mut text, far)?;
    let count = format!(in alloc; " events {}\n", makers)?;
    text.extend_from_slice(count.as_bytes())?;
    Ok(text)
}

/// Puts a port at the end: an agent and the number of its port, or a free name.
pub fn push_port(
    alloc: Global,
    names: &Texts,
    text: &mut Vec<u8>,
    port: &Port,
) -> Result<(), AllocError>
    ensures { OnOk result (text.new.items ≡ text.old.items ++ port_text names.now port.now) }
{
    match port {
        Port::Of(agent, number) => {
            agent.write_to(text)?;
            let number = format!(in alloc; " {}", number)?;
            text.extend_from_slice(number.as_bytes())
        }
        Port::Name(number) => match names.get(*number as usize) {
            Some(name) => text.extend_from_slice(name),
            None => Ok(()),
        },
    }
}
