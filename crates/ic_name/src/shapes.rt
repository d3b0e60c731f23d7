ghost use Rattle.std.specs.Prelude.{◌≡◌, ◌<◌, IfOk, IfErr};
ghost use Rattle.ic_name.specs.NameShapes.{HasShape, generations_of, next_place};
ghost use Rattle.ic_name.specs.NameTexts.{IsBadAt, IsTextOf};

use crate::limits::MAX_START_AGENTS;
use smallvec::SmallVec;
use std::alloc::{AllocError, Global};

/// The start number in the text of a name, and how many digits follow it.
#[derive(Clone, Copy)]
pub struct Shape {
    pub start: u16,
    pub generations: usize,
}

/// How far the text of a name has been read: not at all, to the end of a name, or to a dot after one.
#[derive(Clone, Copy)]
pub enum Place {
    Front,
    Whole(Shape),
    Dotted(Shape),
}

impl Place {
    /// The place after one byte more. `None` where no text of a name goes on with this byte.
    pub fn next(self, byte: u8) -> Option<Place>
        requires { generations_of self < usize.MAX }
        ensures { result ≡ next_place self byte }
    {
        match self {
            Place::Front => match byte {
                b'0'..=b'9' => Some(Place::Whole(Shape {
                    start: u16::from(byte - b'0'),
                    generations: 0,
                })),
                _ => None,
            },
            Place::Whole(shape) => match byte {
                b'.' => Some(Place::Dotted(shape)),
                b'0'..=b'9' if shape.generations == 0 && shape.start > 0 => {
                    let start = 10 * usize::from(shape.start) + usize::from(byte - b'0');
                    if start < MAX_START_AGENTS {
                        Some(Place::Whole(Shape {
                            start: start as u16,
                            generations: 0,
                        }))
                    } else {
                        None
                    }
                }
                _ => None,
            },
            Place::Dotted(shape) => match byte {
                b'0'..=b'3' => Some(Place::Whole(Shape {
                    start: shape.start,
                    generations: shape.generations + 1,
                })),
                _ => None,
            },
        }
    }
}

impl Shape {
    /// The shape of the text of a name of any depth. An error is the least offset at which no text of a name goes on,
    /// or the length of a text that breaks off.
    pub fn of(text: &[u8]) -> Result<Shape, usize>
        ensures ok { IfOk result (λ shape. HasShape shape text.now) }
        ensures err { IfErr result (λ offset. IsBadAt text.now offset) }
    {
        let mut place = Place::Front;
        for offset in 0..text.len() {
            match place.next(text[offset]) {
                Some(next) => place = next,
                None => return Err(offset),
            }
        }
        match place {
            Place::Whole(shape) => Ok(shape),
            Place::Front | Place::Dotted(_) => Err(text.len()),
        }
    }

    /// The digits in a text of this shape.
    pub fn digits(self, alloc: Global, text: &[u8]) -> Result<SmallVec<u8, 16>, AllocError>
        requires { HasShape self text.now }
        ensures { IfOk result (λ digits. IsTextOf (record { start = self.start; digits = digits.items }) text.now) }
    {
        let dotted = &text[text.len() - 2 * self.generations..];
        let mut digits = SmallVec::new(alloc);
        for generation in 0..self.generations {
            digits.push(dotted[2 * generation + 1] - b'0')?;
        }
        Ok(digits)
    }
}
