ghost use Rattle.std.specs.Prelude.{◌≡◌, MatchResult, OnErr};
ghost use Rattle.ic_answer.specs.Changed.{HasChanged};
ghost use Rattle.ic_answer.specs.Longer.{IsLonger};
ghost use Rattle.ic_answer.specs.Texts.{answer_text};
ghost use Rattle.ic_command.specs.declared.request.Request.TheVariants.{Absorb};
ghost use Rattle.ic_desk.specs.Views.{IsDesk, TurnsByRequest};

use crate::named_mark::NamedMark;
use crate::obstacle_text::obstacle_text;
use crate::texts::{absorbed_text, never_text};
use ic_answer::{Answer, Refused, text_or_refused};
use ic_journal::{Bench, LinkStore};
use ic_name::EventName;
use ic_undo::{AbsorbFault, absorb};
use std::alloc::{AllocError, Global};

/// Absorbs the events of these names. An error if events were fired that stand now, and there is no memory to tell how many.
pub(crate) fn absorb_events<L: LinkStore>(
    alloc: Global,
    bench: &mut Bench<L>,
    marks: &[NamedMark],
    names: &Vec<EventName>,
) -> Result<Answer, AllocError>
    ensures turns { MatchResult result (λ answer. TurnsByRequest (record { bench = bench.old; marks = marks.now }) (Absorb names.now) (answer_text answer) (record { bench = bench.new; marks = marks.now })) (λ _. bench.new.start ≡ bench.old.start) }
    ensures lines { IsLonger bench.old bench.new }
    ensures changed { OnErr result (HasChanged bench.old bench.new) }
{
    bench.lawful();
    let absorbed = absorb(alloc, bench, names);
    bench.lawful();
    match absorbed {
        Ok(count) => text_or_refused(absorbed_text(alloc, count), count as usize, Refused::Memory),
        Err(AbsorbFault::NeverActive(name, obstacle)) => {
            let reason = obstacle_text(alloc, bench.start().names(), &name, &obstacle);
            Ok(Answer::hindered_or_memory(never_text(alloc, &name), reason))
        }
        Err(AbsorbFault::Deep) => Ok(Answer::Refused(Refused::Deep)),
        Err(AbsorbFault::Full) => Ok(Answer::Refused(Refused::Full)),
        Err(AbsorbFault::HistoryFull) => Ok(Answer::Refused(Refused::HistoryFull)),
        Err(AbsorbFault::Memory) => Ok(Answer::Refused(Refused::Memory)),
    }
}
