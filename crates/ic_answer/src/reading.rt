ghost use Rattle.std.specs.Prelude.{◌≡◌, ◌++◌, IfOk, OnOk};
ghost use Rattle.ic_name.specs.Events.{Event};
ghost use Rattle.ic_set.specs.Pairs.{IsPairOf};
ghost use Rattle.ic_journal.specs.Views.{set_of};
ghost use Rattle.ic_command.specs.declared.command.Command.TheVariants.{Active, Net};
ghost use Rattle.ic_answer.specs.Texts.{event_line};
ghost use Rattle.ic_answer.specs.Turns.{Tells};

use ic_journal::{ActivePair, Bench, LinkStore};
use ic_name::write_pair;
use ic_text::print_sheet;
use std::alloc::{AllocError, Global};

/// The printed net.
pub(crate) fn net<L: LinkStore>(alloc: Global, bench: &Bench<L>) -> Result<Vec<u8>, AllocError>
    ensures { IfOk result (λ text. Tells bench.now Net text.items) }
{
    bench.lawful();
    let sheet = bench.sheet()?;
    print_sheet(alloc, &sheet, bench.start().names())
}

/// How many active pairs there are, and their names, in order of leads.
pub(crate) fn active<L: LinkStore>(alloc: Global, bench: &Bench<L>) -> Result<Vec<u8>, AllocError>
    ensures { IfOk result (λ text. Tells bench.now Active text.items) }
{
    bench.lawful();
    let pairs = bench.active()?;
    let mut text = format!(in alloc; "active {}\n", pairs.len())?.into_bytes();
    for pair in &pairs {
        push_active(bench, &mut text, pair)?;
    }
    Ok(text)
}

/// Puts a line with the names of an active pair at the end.
fn push_active<L: LinkStore>(
    bench: &Bench<L>,
    text: &mut Vec<u8>,
    pair: &ActivePair,
) -> Result<(), AllocError>
    ensures { OnOk result ((e : Event) → IsPairOf (set_of bench.now) e pair.now → text.new.items ≡ text.old.items ++ event_line e) }
{
    bench.lawful();
    let Some(lead) = bench.name_of(pair.lead)? else {
        return Ok(());
    };
    let Some(other) = bench.name_of(pair.other)? else {
        return Ok(());
    };
    write_pair(&lead, &other, text)?;
    text.push(b'\n')?;
    Ok(())
}
