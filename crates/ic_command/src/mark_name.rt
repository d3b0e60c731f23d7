ghost use Rattle.std.specs.Prelude.{◌≡◌, ◌↔◌, IfOk, IsTrue};
ghost use Rattle.std.specs.List.{list_all};
ghost use Rattle.ic_text.specs.Texts.{is_name_byte};
ghost use Rattle.ic_command.specs.MarkNames.{IsMarkName, IsMarkNameIn};

use ic_text::grammar::bytes::{is_letter, is_name_byte};
use ic_text::grammar::limits::MAX_NAME;
use std::alloc::{AllocError, Global};
use std::marker::Model;

/// The name of a mark. It has the form of a name of a net text: at most 32 lower-case letters, digits and `_`, no digit first.
#[derive(Drop)]
pub struct MarkName {
    bytes: Vec<u8>,
}

impl Model for MarkName {
    ghost use Rattle.std.specs.Prelude.{ℕ, List};
    ghost use Rattle.ic_command.specs.MarkNames.{IsMarkName};

    ghost Value = { List ℕ };

    ghost view = { λ n. n.bytes.items };

    ghost invariant = { λ n. IsMarkName n.bytes.items };
}

impl MarkName {
    /// The name that a word writes; `None` if it has not the form of one.
    pub fn read(alloc: Global, word: &[u8]) -> Result<Option<MarkName>, AllocError>
        ensures { IfOk result (λ name. IsMarkNameIn word.now name) }
    {
        if !is_mark_name(word) {
            return Ok(None);
        }
        let bytes = Vec::from_slice(alloc, word)?;
        Ok(Some(MarkName { bytes }))
    }

    /// Its bytes.
    pub fn bytes(&self) -> &[u8]
        ensures { result.now ≡ self.now }
    {
        &self.bytes
    }

    /// Whether it is the other name, too.
    pub fn is(&self, other: &MarkName) -> bool
        ensures { IsTrue result ↔ (self.now ≡ other.now) }
    {
        self.bytes.as_slice() == other.bytes.as_slice()
    }
}

/// Whether a word has the form of a mark's name.
fn is_mark_name(word: &[u8]) -> bool
    ensures { IsTrue result ↔ IsMarkName word.now }
{
    match word {
        [] => false,
        [first, further @ ..] => is_letter(*first)
            && are_name_bytes(further)
            && word.len() <= MAX_NAME,
    }
}

fn are_name_bytes(bytes: &[u8]) -> bool
    ensures { result ≡ list_all is_name_byte bytes.now }
{
    bytes.iter().all(|byte| is_name_byte(*byte))
}
