ghost use Rattle.std.specs.Prelude.{◌≡◌, ◌≤◌, ◌⊎◌, List, [], length, IsTrue, IfOk, OnOk};
ghost use Rattle.ic_theory.specs.Starts.{Start, IsProper};
ghost use Rattle.ic_trace.specs.declared.known.Known.{Known as AKnown};
ghost use Rattle.ic_trace.specs.Known.{AreKnown};
ghost use Rattle.ic_trace.specs.Readings.{AreInside, letters_in};
ghost use Rattle.ic_trace.specs.Cursors.{list_in, HasTwo, Does};

use crate::concurrency::are_concurrent;
use crate::known::Known;
use crate::moving::Move;
use crate::reading::Step;
use std::alloc::{AllocError, Global};

/// A list of letters with a place in it: the letters before the place, and those after it, the nearest last.
#[derive(Drop)]
pub(crate) struct Cursor {
    before: Vec<Step>,
    behind: Vec<Step>,
}

impl Cursor {
    /// The list, with the place at its end.
    pub fn over(alloc: Global, steps: Vec<Step>) -> Cursor
        ensures { list_in result ≡ steps.items }
    {
        Cursor {
            before: steps,
            behind: Vec::new(alloc),
        }
    }

    /// The list.
    pub fn into_steps(mut self) -> Result<Vec<Step>, AllocError>
        ensures { IfOk result (λ steps. steps.items ≡ list_in self) }
    {
        while let Some(step) = self.behind.pop() {
            self.before.push(step)?;
        }
        Ok(self.before)
    }

    /// Makes a move, if it is lawful; false if it isn't, and then the list is lost.
    pub fn make(&mut self, known: &[Known], step: Move) -> Result<bool, AllocError>
        requires { AreInside known.now (list_in self.old) }
        ensures does { IfOk result (λ yes. (s : Start) → IsProper s → AreKnown s known.now → Does s step (letters_in known.now (list_in self.old)) yes (letters_in known.now (list_in self.new))) }
        ensures inside { IfOk result (λ yes. IsTrue yes → AreInside known.now (list_in self.new)) }
    {
        match step {
            Move::Swap(place) => self.swap(known, place),
            Move::Cancel(place) => self.cancel(place),
        }
    }

    /// The two letters at the place change places.
    fn swap(&mut self, known: &[Known], place: usize) -> Result<bool, AllocError>
        requires { AreInside known.now (list_in self.old) }
        ensures does { IfOk result (λ yes. (s : Start) → IsProper s → AreKnown s known.now → Does s (Move.Swap place) (letters_in known.now (list_in self.old)) yes (letters_in known.now (list_in self.new))) }
        ensures inside { IfOk result (λ yes. IsTrue yes → AreInside known.now (list_in self.new)) }
    {
        let Some((first, second)) = self.take_two(place)? else {
            return Ok(false);
        };
        if !are_concurrent(known, first.number(), second.number()) {
            return Ok(false);
        }
        self.behind.push(first)?;
        self.behind.push(second)?;
        Ok(true)
    }

    /// The two letters at the place go.
    fn cancel(&mut self, place: usize) -> Result<bool, AllocError>
        ensures does { IfOk result (λ yes. (s : Start) (ks : List AKnown) → AreKnown s ks → AreInside ks (list_in self.old) → Does s (Move.Cancel place) (letters_in ks (list_in self.old)) yes (letters_in ks (list_in self.new))) }
        ensures inside { IfOk result (λ yes. (ks : List AKnown) → IsTrue yes → AreInside ks (list_in self.old) → AreInside ks (list_in self.new)) }
    {
        match self.take_two(place)? {
            Some((first, second)) => Ok(first.undoes(second)),
            None => Ok(false),
        }
    }

    /// Takes out the letter at a place and the one after it; `None` if there are no two.
    fn take_two(&mut self, place: usize) -> Result<Option<(Step, Step)>, AllocError>
        ensures { IfOk result (λ two. HasTwo (list_in self.old) place two self.new) }
    {
        self.go_to(place)?;
        let Some(first) = self.behind.pop() else {
            return Ok(None);
        };
        let Some(second) = self.behind.pop() else {
            return Ok(None);
        };
        Ok(Some((first, second)))
    }

    /// Goes to a place, or to the end if the list is shorter.
    fn go_to(&mut self, place: usize) -> Result<(), AllocError>
        ensures same { OnOk result (list_in self.new ≡ list_in self.old) }
        ensures there { OnOk result ((length self.new.before.items ≡ place) ⊎ ((length self.new.before.items ≤ place) × (self.new.behind.items ≡ []))) }
    {
        'back: while self.before.len() > place {
            let Some(step) = self.before.pop() else {
                unreachable!()
            };
            self.behind.push(step)?;
        }
        'forth: while self.before.len() < place {
            let Some(step) = self.behind.pop() else {
                return Ok(());
            };
            self.before.push(step)?;
        }
        Ok(())
    }
}
