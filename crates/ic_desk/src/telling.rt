ghost use Rattle.std.specs.Prelude.{◌≡◌, ◌++◌, IfOk, OnErr, OnOk, map};
ghost use Rattle.ic_answer.specs.Changed.{HasChanged};
ghost use Rattle.ic_answer.specs.Texts.{answer_text};
ghost use Rattle.ic_command.specs.declared.question.Question.TheVariants.{Step};
ghost use Rattle.ic_desk.specs.Questions.{Told, mark_line, marks_text};
ghost use Rattle.ic_desk.specs.Views.{note_of};

use crate::desk::Desk;
use crate::named_mark::NamedMark;
use ic_answer::{
    Answer, RULES, Refused, step_often, tell_agents, tell_causes, tell_dependents, tell_history,
    tell_wire, unstep,
};
use ic_command::{Command, HELP, Question, Request};
use ic_journal::{LinkStore, NoGate};
use std::alloc::{AllocError, Global};

impl<L: LinkStore> Desk<L> {
    /// Answers a question. Three questions change something: a step fires the active pair with the least lead as `fire`
    /// does, steps do so again and again, and an unstep undoes the event that was fired last as `undo` does. If there is no
    /// memory for it, the answer is a refusal, and then nothing has changed; an error only if other events stand than
    /// before and there is no memory for the answer.
    pub fn tell(&mut self, alloc: Global, question: Question) -> Result<Answer, AllocError>
        ensures told { IfOk result (λ answer. Told self.old question (answer_text answer) self.new) }
        ensures changed { OnErr result (HasChanged self.old.bench self.new.bench) }
    {
        match question {
            Question::Agents => Ok(Answer::text_or_memory(tell_agents(alloc, &self.bench))),
            Question::Causes => Ok(Answer::text_or_memory(tell_causes(alloc, &self.bench))),
            Question::Dependents(event) => Ok(Answer::answer_or_memory(tell_dependents(
                alloc,
                &self.bench,
                &event,
            ))),
            Question::Wire(place) => Ok(Answer::answer_or_memory(tell_wire(
                alloc,
                &self.bench,
                place,
            ))),
            Question::History => Ok(Answer::text_or_memory(tell_history(alloc, &self.bench))),
            Question::Marks => Ok(Answer::text_or_memory(marks_text(alloc, &self.marks))),
            Question::Rules => Ok(Answer::text_or_memory(Vec::from_slice(alloc, RULES.as_bytes()))),
            Question::Help => Ok(Answer::text_or_memory(Vec::from_slice(alloc, HELP.as_bytes()))),
            Question::Step => self.step(alloc),
            Question::Steps(most) => Ok(step_often(alloc, &mut self.bench, most)),
            Question::Unstep(most) => Ok(unstep(alloc, &mut self.bench, most)),
        }
    }

    /// Fires the active pair with the least lead, as `fire` does with its name.
    fn step(&mut self, alloc: Global) -> Result<Answer, AllocError>
        ensures told { IfOk result (λ answer. Told self.old Step (answer_text answer) self.new) }
        ensures changed { OnErr result (HasChanged self.old.bench self.new.bench) }
    {
        self.bench.lawful();
        let Some(pair) = self.bench.least_active() else {
            return Ok(Answer::Refused(Refused::NotActive));
        };
        let Ok(event) = self.bench.name_of_pair(pair) else {
            return Ok(Answer::Refused(Refused::Memory));
        };
        let fire = Request::Bench(Command::Fire(event));
        self.carry_out(alloc, fire, &NoGate)
    }
}

/// How many marks there are, and the name of each with the number of its events.
fn marks_text(alloc: Global, marks: &[NamedMark]) -> Result<Vec<u8>, AllocError>
    ensures { IfOk result (λ text. text.items ≡ marks_text (map note_of marks.now)) }
{
    let mut text = format!(in alloc; "marks {}\n", marks.len())?.into_bytes();
    for mark in marks {
        push_mark(alloc, &mut text, mark)?;
    }
    Ok(text)
}

/// Puts the line of a mark at the end.
fn push_mark(alloc: Global, text: &mut Vec<u8>, named: &NamedMark) -> Result<(), AllocError>
    ensures { OnOk result (text.new.items ≡ text.old.items ++ mark_line (note_of named.now)) }
{
    text.extend_from_slice(named.name().bytes())?;
    let count = format!(in alloc; " {}\n", named.mark().event_count())?;
    text.extend_from_slice(count.as_bytes())
}
