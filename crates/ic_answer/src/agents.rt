ghost use Rattle.std.specs.Prelude.{IfOk};
ghost use Rattle.ic_command.specs.declared.question.Question.TheVariants.{Agents};
ghost use Rattle.ic_answer.specs.BenchQuestions.{InformsOf};

use ic_journal::{Bench, LinkStore};
use ic_text::print_agents;
use std::alloc::{AllocError, Global};

/// Which line of the printed net is which agent's.
pub fn tell_agents<L: LinkStore>(alloc: Global, bench: &Bench<L>) -> Result<Vec<u8>, AllocError>
    ensures { IfOk result (λ text. InformsOf bench.now Agents text.items) }
{
    bench.lawful();
    let sheet = bench.sheet()?;
    print_agents(alloc, &sheet, bench.start().names())
}
