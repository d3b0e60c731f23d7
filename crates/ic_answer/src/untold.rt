ghost use Rattle.std.specs.Prelude.{◌≡◌, ◌<◌, IfOk, IsOk, OnErr};
ghost use Rattle.ic_answer.specs.Texts.{answer_text, refusal_text};

use crate::answer::Answer;
use crate::refused::Refused;
use std::alloc::AllocError;

/// The text as an answer, after so many events were fired or undone. If there is no memory for it and there were none, the
/// answer is the refusal. If there were some, it is an error.
pub fn text_or_refused(
    text: Result<Vec<u8>, AllocError>,
    changes: usize,
    refused: Refused,
) -> Result<Answer, AllocError>
    ensures answered { IsOk text → IsOk result }
    ensures text { IfOk text (λ t. IfOk result (λ answer. answer_text answer ≡ t.items)) }
    ensures refused { OnErr text (IfOk result (λ answer. (answer_text answer ≡ refusal_text refused) × (changes ≡ 0))) }
    ensures error { OnErr result (0 < changes) }
{
    match text {
        Ok(text) => Ok(Answer::Text(text)),
        Err(_) if changes == 0 => Ok(Answer::Refused(refused)),
        Err(fault) => Err(fault),
    }
}
