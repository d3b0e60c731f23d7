ghost use Rattle.std.specs.Prelude.{◌≡◌};
ghost use Rattle.ic_text.specs.Faults.{code, offset as offset_of};

use thiserror::Error;

/// Why a text is refused, and at which byte.
///
/// `TooLong` is answered before all others. Of the next six the one at the least byte is answered, and of those
/// at one byte the first in this order. The last two are answered only if none of the others applies.
#[derive(Clone, Copy, Debug, PartialEq, Eq, Error)]
pub enum Refusal {
    /// The text has more than `MAX_TEXT` bytes.
    #[error("too long: the text has more than 1,048,576 bytes")]
    TooLong,
    /// A byte that no token has, or in a comment one that may not stand there.
    #[error("bad byte: the byte at {0} begins no token; expected a name, `G`, `D`, `E`, one of `(`, `)`, `,`, `=` and `;`, `@straight`, a blank, or `#` and a comment of printable ASCII")]
    BadByte(usize),
    /// A token with which the text so far begins no text of the grammar, or the end of the text before its last
    /// token.
    #[error("syntax: a wrong token at byte {0}, or the text ends there; expected `@straight;` or nothing in first place, and then equations `TERM = TERM;`, each term a name, `E`, `G(TERM,TERM)` or `D(TERM,TERM)`")]
    Syntax(usize),
    /// A name of more than `MAX_NAME` bytes.
    #[error("name too long: the name at byte {0} has more than 32 bytes; expected at most 32")]
    NameTooLong(usize),
    /// A third occurrence of a name.
    #[error("thrice: the name at byte {0} occurs for the third time; expected each name once or twice")]
    Thrice(usize),
    /// A symbol after `MAX_START_AGENTS` others.
    #[error("too many agents: the symbol at byte {0} comes after 65,535 others; expected at most 65,535 in all")]
    TooManyAgents(usize),
    /// A symbol within the parentheses of `MAX_NESTING` others.
    #[error("too nested: the symbol at byte {0} stands within 256 others; expected at most 255 round a symbol")]
    TooNested(usize),
    /// A name that begins with `_` and occurs once.
    #[error("reserved: the name at byte {0} begins with `_` and occurs once; expected it twice, or another name")]
    ReservedFree(usize),
    /// More than `MAX_FREE_NAMES` names occur once.
    #[error("too many free names: more than 1,024 names occur once")]
    TooManyFree,
}

impl Refusal {
    /// The number of the fault, from 1 to 9.
    pub fn number(self) -> u8
        ensures { result ≡ code self }
    {
        match self {
            Refusal::TooLong => 1,
            Refusal::BadByte(_) => 2,
            Refusal::Syntax(_) => 3,
            Refusal::NameTooLong(_) => 4,
            Refusal::Thrice(_) => 5,
            Refusal::TooManyAgents(_) => 6,
            Refusal::TooNested(_) => 7,
            Refusal::ReservedFree(_) => 8,
            Refusal::TooManyFree => 9,
        }
    }

    /// The byte at which the fault stands. `None` for `TooLong` and `TooManyFree`, which stand at none.
    pub fn offset(self) -> Option<usize>
        ensures { result ≡ offset_of self }
    {
        match self {
            Refusal::TooLong | Refusal::TooManyFree => None,
            Refusal::BadByte(at)
            | Refusal::Syntax(at)
            | Refusal::NameTooLong(at)
            | Refusal::Thrice(at)
            | Refusal::TooManyAgents(at)
            | Refusal::TooNested(at)
            | Refusal::ReservedFree(at) => Some(at),
        }
    }
}
