ghost use Rattle.std.specs.Prelude.{◌≡◌, ◌+◌, ◌<◌, ◌≤◌, ◌^◌, [], ◌∷◌, length, MatchOption, IfSome, if◌then◌else◌, codes};
ghost use Rattle.std.specs.Str.{bytes_eq};
ghost use Rattle.std.specs.List.{prefix_len};
ghost use Rattle.ic_text.specs.Texts.{is_name_byte};
ghost use Rattle.ic_text.specs.Tokens.{is_gap, is_comment_byte, profile, stray, single, between, items};
ghost use Rattle.ic_text.specs.Views.{token_of, Takes, left};

use crate::grammar::bytes::{is_letter, is_name_byte};
use ic_name::Kind;

/// A token of a text. An `@` that begins no profile, a digit that no name runs over, and a byte in a wrong place count
/// too.
#[derive(Clone, Copy)]
pub enum Lexeme<'a> {
    Symbol(Kind),
    Name(&'a [u8]),
    Opening,
    Closing,
    Comma,
    Equals,
    Semicolon,
    Profile,
    Stray,
    Digit,
    Bad,
}

/// The tokens of a text, from left to right.
#[derive(Drop)]
pub struct Lexer<'a> {
    rest: &'a [u8],
    at: usize,
    in_comment: bool,
}

/// Whether this is a byte between tokens. Most bytes are none, and one test tells that of them.
fn is_gap(byte: u8) -> bool
    ensures { result ≡ is_gap byte }
{
    byte <= b' ' && matches!(byte, b' ' | b'\t' | b'\r' | b'\n')
}

/// Whether this is a byte that may stand in a comment.
fn is_comment_byte(byte: u8) -> bool
    ensures { result ≡ is_comment_byte byte }
{
    matches!(byte, b' '..=b'~' | b'\t' | b'\r')
}

/// How many bytes a name goes on for.
#[tactic(auto, using(crate::proofs::Lexing::name_within))]
fn name_len(bytes: &[u8]) -> usize
    ensures value { result ≡ prefix_len is_name_byte bytes.now }
    ensures within { result ≤ length bytes.now }
{
    bytes.iter().take_while(|byte| is_name_byte(**byte)).count()
}

/// The first byte and those after it.
fn first_of(bytes: &[u8]) -> Option<(u8, &[u8])>
    ensures { MatchOption result (bytes.now ≡ []) (λ x. bytes.now ≡ x.0 ∷ x.1.now) }
{
    match bytes {
        [] => None,
        [byte, rest @ ..] => Some((*byte, rest)),
    }
}

/// The token of an `@`, by the letters after it.
fn at_sign(letters: &[u8]) -> Lexeme<'static>
    ensures { token_of result ≡ (if bytes_eq letters.now (codes "straight") then profile else stray) }
{
    if letters == b"straight".as_slice() {
        Lexeme::Profile
    } else {
        Lexeme::Stray
    }
}

/// The token of one byte.
fn single(byte: u8) -> Lexeme<'static>
    ensures { token_of result ≡ single byte }
{
    match byte {
        b'G' => Lexeme::Symbol(Kind::Gamma),
        b'D' => Lexeme::Symbol(Kind::Delta),
        b'E' => Lexeme::Symbol(Kind::Eps),
        b'(' => Lexeme::Opening,
        b')' => Lexeme::Closing,
        b',' => Lexeme::Comma,
        b'=' => Lexeme::Equals,
        b';' => Lexeme::Semicolon,
        b'0'..=b'9' => Lexeme::Digit,
        _ => Lexeme::Bad,
    }
}

impl<'a> Lexer<'a> {
    /// The tokens of a whole text.
    pub fn new(text: &'a [u8]) -> Lexer<'a>
        ensures tokens { left result ≡ items between 0 text.now }
        ensures at { result.at ≡ 0 }
        ensures rest { length result.rest.now ≡ length text.now }
    {
        Lexer {
            rest: text,
            at: 0,
            in_comment: false,
        }
    }

    /// The next token with its offset.
    #[tactic(auto, using(crate::proofs::Lexing::lexing))]
    pub fn next(&mut self) -> Option<(usize, Lexeme<'a>)>
        requires { self.old.at + length self.old.rest.now < 2 ^ 64 }
        ensures taken { Takes (left self.old) (left self.new) result }
        ensures ahead { IfSome result (λ x. (self.old.at ≤ x.0) × (x.0 < self.new.at)) }
        ensures room { self.new.at + length self.new.rest.now ≡ self.old.at + length self.old.rest.now }
    {
        while let Some((byte, after)) = first_of(self.rest) {
            let at = self.at;
            if self.in_comment {
                self.rest = after;
                self.at += 1;
                if byte == b'\n' {
                    self.in_comment = false;
                } else if !is_comment_byte(byte) {
                    return Some((at, Lexeme::Bad));
                }
            } else if is_letter(byte) {
                let len = name_len(after) + 1;
                let (name, behind) = self.rest.split_at(len);
                self.rest = behind;
                self.at += len;
                return Some((at, Lexeme::Name(name)));
            } else if byte == b'@' {
                let (letters, behind) = after.split_at(name_len(after));
                self.rest = behind;
                self.at += letters.len() + 1;
                return Some((at, at_sign(letters)));
            } else {
                self.rest = after;
                self.at += 1;
                if byte == b'#' {
                    self.in_comment = true;
                } else if !is_gap(byte) {
                    return Some((at, single(byte)));
                }
            }
        }
        None
    }
}
