ghost use Rattle.std.specs.Prelude.{◌≡◌, IfOk};
ghost use Rattle.ic_session.specs.Refusals.{refusal_line};

use ic_text::Refusal;
use std::alloc::{AllocError, Global};

/// The answer to a net text that is refused.
pub fn refusal_line(alloc: Global, refusal: Refusal) -> Result<Vec<u8>, AllocError>
    ensures { IfOk result (λ text. text.items ≡ refusal_line refusal) }
{
    let number = refusal.number();
    let line = match refusal.offset() {
        Some(at) => format!(in alloc; "refused {} at {}\n", number, at)?,
        None => format!(in alloc; "refused {}\n", number)?,
    };
    Ok(line.into_bytes())
}
