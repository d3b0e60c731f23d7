ghost use Rattle.std.specs.Prelude.{◌≡◌, option_map, IfOk, OnErr};
ghost use Rattle.ic_answer.specs.declared.refused.Refused.TheVariants.{Memory};
ghost use Rattle.ic_answer.specs.Texts.{answer_text, reason_text, refusal_text};

use crate::refused::Refused;
use ic_journal::End;
use std::alloc::AllocError;

/// What is written in answer to a command.
#[derive(Drop)]
pub enum Answer {
    /// Its text; it may be empty.
    Text(Vec<u8>),
    /// A refusal whose line is always the same.
    Refused(Refused),
    /// The end of a reduction that fired nothing. It is told without memory.
    Unfired(End),
    /// The text of a refusal that names something, and what a session that explains itself adds to it. `None` if there was no
    /// memory for that.
    Hindered(Vec<u8>, Option<Vec<u8>>),
}

impl Answer {
    /// What is written.
    pub fn bytes(&self) -> &[u8]
        ensures { result.now ≡ answer_text self.now }
    {
        match self {
            Answer::Text(text) => text,
            Answer::Refused(refused) => refused.line(),
            Answer::Unfired(End::Normal) => b"reduced 0 normal\n",
            Answer::Unfired(End::Budget) => b"reduced 0 budget\n",
            Answer::Unfired(End::Limit) => b"reduced 0 limit\n",
            Answer::Unfired(End::Memory) => b"refused 25 memory after 0\n",
            Answer::Hindered(text, _) => text,
        }
    }

    /// What a session that explains itself adds to it, if there is such a reason.
    pub fn reason(&self) -> Option<&[u8]>
        ensures { option_map (λ reason. reason.now) result ≡ reason_text self.now }
    {
        match self {
            Answer::Hindered(_, Some(reason)) => Some(reason.as_slice()),
            Answer::Text(_) | Answer::Refused(_) | Answer::Unfired(_) | Answer::Hindered(_, None) =>
                None,
        }
    }

    /// A text, or that no memory is left.
    pub fn text_or_memory(text: Result<Vec<u8>, AllocError>) -> Answer
        ensures text { IfOk text (λ t. answer_text result ≡ t.items) }
        ensures memory { OnErr text (answer_text result ≡ refusal_text Memory) }
    {
        match text {
            Ok(text) => Answer::Text(text),
            Err(_) => Answer::Refused(Refused::Memory),
        }
    }

    /// The text of a refusal that names something with its reason, or that no memory is left for the text.
    pub fn hindered_or_memory(text: Result<Vec<u8>, AllocError>, reason: Option<Vec<u8>>) -> Answer
        ensures text { IfOk text (λ t. answer_text result ≡ t.items) }
        ensures reason { IfOk text (λ _. reason_text result ≡ option_map (λ reason. reason.items) reason) }
        ensures memory { OnErr text (answer_text result ≡ refusal_text Memory) }
    {
        match text {
            Ok(text) => Answer::Hindered(text, reason),
            Err(_) => Answer::Refused(Refused::Memory),
        }
    }

    /// An answer, or that no memory is left.
    pub fn answer_or_memory(answer: Result<Answer, AllocError>) -> Answer
        ensures answer { IfOk answer (λ a. answer_text result ≡ answer_text a) }
        ensures memory { OnErr answer (answer_text result ≡ refusal_text Memory) }
    {
        match answer {
            Ok(answer) => answer,
            Err(_) => Answer::Refused(Refused::Memory),
        }
    }
}
