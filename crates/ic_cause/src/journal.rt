ghost use Rattle.std.specs.Prelude.{◌≡◌, ◌++◌, map, IfOk, OnOk, codes};
ghost use Rattle.std.specs.Fmt.{decimal};
ghost use Rattle.ic_cause.specs.Journals.{journal_head, journal_line, journal_text};

use ic_name::{Event, write_pair};
use itoa::Buffer;
use std::alloc::{AllocError, Global};

/// An event and its rank.
#[derive(Drop)]
pub struct RankedEvent {
    pub event: Event,
    pub rank: u32,
}

/// The journal of these events: how many there are, and a line for each with its rank, in the order in which they are
/// given.
pub fn journal_text(alloc: Global, events: &[RankedEvent]) -> Result<Vec<u8>, AllocError>
    ensures { IfOk result (λ text. text.items ≡ journal_text (map (λ x. record { event = x.event; rank = x.rank }) events.now)) }
{
    let mut text = journal_head(alloc, events.len())?;
    for ranked in events {
        push_line(&mut text, ranked)?;
    }
    Ok(text)
}

/// The first line of a journal: how many events it has.
pub fn journal_head(alloc: Global, events: usize) -> Result<Vec<u8>, AllocError>
    ensures { IfOk result (λ text. text.items ≡ journal_head events) }
{
    Ok(format!(in alloc; "journal {}\n", events)?.into_bytes())
}

/// Puts the line of an event at the end. At an error memory ran out, and a front of the line may stand there.
fn push_line(text: &mut Vec<u8>, ranked: &RankedEvent) -> Result<(), AllocError>
    ensures { OnOk result (text.new.items ≡ text.old.items ++ journal_line (record { event = ranked.now.event; rank = ranked.now.rank })) }
{
    write_pair(ranked.event.lead(), ranked.event.other(), text)?;
    push_rank(text, ranked.rank)?;
    Ok(())
}

/// Ends the line of an event: writes its rank after the names of its agents. At an error memory ran out, and a front of
/// this may stand at the end.
pub fn push_rank(text: &mut Vec<u8>, rank: u32) -> Result<(), AllocError>
    ensures { OnOk result (text.new.items ≡ text.old.items ++ codes " rank " ++ decimal rank ++ codes "\n") }
{
    let mut digits = Buffer::new();
    text.extend_from_slice(b" rank ")?;
    text.extend_from_slice(digits.format(rank).as_bytes())?;
    text.push(b'\n')?;
    Ok(())
}
