ghost use Rattle.std.specs.Prelude.{◌≡◌};
ghost use Rattle.ic_desk.specs.Places.{IsPlace};

use ic_command::MarkName;
use ic_undo::Mark;
use std::marker::Model;

/// A mark under its name, and after how many lines of the history just its events last stood.
#[derive(Drop)]
pub(crate) struct NamedMark {
    pub(crate) name: MarkName,
    pub(crate) mark: Mark,
    pub(crate) since: usize,
}

impl Model for NamedMark {
    ghost use Rattle.ic_desk.specs.Views.{NamedView};

    ghost Value = { NamedView };

    ghost view = { λ m. record { name = m.name; mark = m.mark; since = m.since } };
}

impl NamedMark {
    pub(crate) fn name(&self) -> &MarkName
        ensures { result.now ≡ self.now.name }
    {
        &self.name
    }

    pub(crate) fn mark(&self) -> &Mark
        ensures { result.now ≡ self.now.mark }
    {
        &self.mark
    }

    pub(crate) fn since(&self) -> usize
        ensures { result ≡ self.now.since }
    {
        self.since
    }

    /// Just its events stand after so many lines.
    pub(crate) fn stands_after(&mut self, lines: usize)
        ensures { self.new ≡ record self.old { since = lines } }
    {
        self.since = lines;
    }
}

/// The place of the mark of this name, if it is one of these.
pub(crate) fn place_of(marks: &[NamedMark], name: &MarkName) -> Option<usize>
    ensures { IsPlace marks.now name.now result }
{
    for place in 0..marks.len() {
        if marks[place].name().is(name) {
            return Some(place);
        }
    }
    None
}
