ghost use Rattle.std.specs.Prelude.{◌≡◌, ◌+◌, ◌≤◌, List, IfOk, vec_capacity, vec_len};
ghost use Rattle.ic_name.specs.Events.{Event as AnEvent};
ghost use Rattle.ic_set.specs.Pairs.{IsActivePair, IsLeastPair, IsPairOf};
ghost use Rattle.ic_journal.specs.Views.{set_of};
ghost use Rattle.ic_answer.specs.Longer.{IsLonger};
ghost use Rattle.ic_answer.specs.Stepped.{stepped_head};
ghost use Rattle.ic_answer.specs.Stepping.{FiresListed, Lists, StepsBench, refusal_of};
ghost use Rattle.ic_answer.specs.Texts.{answer_text, event_line};

use crate::answer::Answer;
use crate::listing::{Listing, head_of};
use crate::named::name_line;
use crate::refused::Refused;
use ic_journal::{ActivePair, Bench, LinkStore, PairFault};
use std::alloc::{AllocError, Global};

/// Fires the active pair with the least lead, again and again, at most so often, and lists what it fired. There is room for
/// the line of an event before it is fired. If the first firing is refused, the answer is this refusal.
pub fn step_often<L: LinkStore>(alloc: Global, bench: &mut Bench<L>, most: u32) -> Answer
    ensures turns { StepsBench bench.old most (answer_text result) bench.new }
    ensures lines { IsLonger bench.old bench.new }
{
    let Ok(mut list) = Listing::empty(alloc) else {
        return Answer::Refused(Refused::Memory);
    };
    for fired in 0..most {
        let Some(pair) = bench.least_active() else {
            return Answer::Text(list.told());
        };
        match fire_listed(alloc, bench, pair, &mut list, fired + 1) {
            Ok(()) => {}
            Err(refused) if fired == 0 => return Answer::Refused(refused),
            Err(_) => return Answer::Text(list.told()),
        }
    }
    Answer::Text(list.told())
}

/// Fires the active pair with the least lead, and puts its event into the list, which has so many then. At an error the list
/// stays the same.
fn fire_listed<L: LinkStore>(
    alloc: Global,
    bench: &mut Bench<L>,
    pair: ActivePair,
    list: &mut Listing,
    count: u32,
) -> Result<(), Refused>
    requires { IsLeastPair (set_of bench.old) pair }
    ensures { FiresListed bench.old list.old count result bench.new list.new }
{
    let Ok((line, head)) = ready(alloc, bench, pair, list, count) else {
        return Err(Refused::Memory);
    };
    let fired = bench.fire_pair(pair);
    bench.lawful();
    match fired {
        Ok(_) => {
            list.put(&line, head);
            Ok(())
        }
        Err(fault) => Err(refused_for(fault)),
    }
}

/// The line of an active pair's event, and the head of a list of so many. There is room for both in the list.
fn ready<L: LinkStore>(
    alloc: Global,
    bench: &Bench<L>,
    pair: ActivePair,
    list: &mut Listing,
    count: u32,
) -> Result<(Vec<u8>, Vec<u8>), AllocError>
    requires { IsActivePair (set_of bench.now) pair }
    ensures line { IfOk result (λ r. (e : AnEvent) → IsPairOf (set_of bench.now) e pair → r.0.items ≡ event_line e) }
    ensures head { IfOk result (λ r. r.1.items ≡ stepped_head count) }
    ensures room { IfOk result (λ r. vec_len list.new.lines + (vec_len r.0 + vec_len r.1) ≤ vec_capacity list.new.lines) }
    ensures stays { (es : List AnEvent) → Lists list.old es → Lists list.new es }
    ensures lines { list.new.lines.items ≡ list.old.lines.items }
{
    let name = bench.name_of_pair(pair)?;
    let line = name_line(alloc, b"", &name)?;
    let head = head_of(alloc, count)?;
    list.reserve_line(&line, &head)?;
    Ok((line, head))
}

/// The refusal of a firing that has this fault.
pub(crate) fn refused_for(fault: PairFault) -> Refused
    ensures { result ≡ refusal_of fault }
{
    match fault {
        PairFault::HistoryFull => Refused::HistoryFull,
        PairFault::Deep => Refused::Deep,
        PairFault::Full => Refused::Full,
        PairFault::Memory => Refused::Memory,
    }
}
