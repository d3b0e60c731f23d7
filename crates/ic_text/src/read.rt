ghost use Rattle.std.specs.Prelude.{◌≡◌, ◌≤◌, length, IfOk};
ghost use Rattle.ic_theory.specs.Starts.{Start as Denoted};
ghost use Rattle.ic_text.specs.Grammar.{Denotes};
ghost use Rattle.ic_text.specs.Faults.{Stands, IsFirstFault};
ghost use Rattle.ic_text.specs.declared.grammar.refusal.Refusal.{Refusal as Fault};
ghost use Rattle.ic_text.specs.Reading.{Gives, read_of};

use crate::builder::Builder;
use crate::fault::TextFault;
use crate::grammar::Refusal;
use crate::grammar::limits::MAX_TEXT;
use crate::lexer::Lexer;
use ic_start::Start;
use std::alloc::Global;

/// The start that a text denotes, or the first thing that is wrong with it. It goes over the text once.
pub fn read_net(alloc: Global, text: &[u8]) -> Result<Start, TextFault>
    // What is read is what the text denotes.
    ensures found { IfOk result (λ s. Denotes text.now s) }
    // What a text without faults denotes is read, unless memory runs out.
    ensures only { (s : Denoted) → Denotes text.now s → ((f : Fault) → Stands text.now f → ⊥) → Gives (λ t. t) result (Ok s) }
    // A text that is read has no fault.
    ensures faultless { IfOk result (λ _. (f : Fault) → Stands text.now f → ⊥) }
    // A fault that is answered stands in the text, and goes before all others that stand there.
    ensures fault { (f : Fault) → result ≡ Err (TextFault.Refused f) → IsFirstFault text.now f }
    // Which start or fault it is, unless memory runs out.
    ensures exact { Gives (λ s. s) result (read_of text.now) }
{
    read(alloc, text)
}

/// Reads token by token.
#[tactic(auto, using(crate::proofs::Steps::run_more, crate::proofs::Steps::run_fails, crate::proofs::Steps::run_ends), unfolding(crate::specs::Reading::read_of))]
fn read(alloc: Global, text: &[u8]) -> Result<Start, TextFault>
    ensures { Gives (λ s. s) result (read_of text.now) }
{
    if text.len() > MAX_TEXT {
        return Err(TextFault::Refused(Refusal::TooLong));
    }
    let mut lexer = Lexer::new(text);
    let mut builder = Builder::new(alloc, text.len())?;
    while let Some((at, piece)) = lexer.next() {
        builder.take(at, piece)?;
    }
    builder.finish(alloc, text)
}
