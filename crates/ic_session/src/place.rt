use crate::mode::Mode;
use ic_command::{Topic, topic_of};

/// What is wrong with a list of events.
#[derive(Clone, Copy, Debug, PartialEq, Eq)]
pub(crate) enum ListFault {
    /// The line of this number, counted from 1, lists no event.
    Line(u64),
    /// The input ended in it.
    Ended,
}

/// How far a session is in its input: the number of the line that asks for something, counted from 1, what that is about, what
/// is wrong with the list that it takes, and how many lines were taken.
#[derive(Clone, Copy, Debug)]
pub(crate) struct Place {
    pub(crate) line: u64,
    pub(crate) topic: Topic,
    pub(crate) list_fault: Option<ListFault>,
    taken: u64,
}

impl Place {
    /// Before the first line.
    pub(crate) fn first() -> Place {
        Place {
            line: 0,
            topic: Topic::Unknown,
            list_fault: None,
            taken: 0,
        }
    }

    /// After a net text and the line that ends it.
    pub(crate) fn pass_net(&mut self, text: &[u8]) {
        let feeds = text.iter().filter(|byte| **byte == b'\n').count();
        self.taken = self.taken.saturating_add(feeds as u64).saturating_add(1);
        self.line = self.taken;
    }

    /// How many lines were taken.
    pub(crate) fn taken(&self) -> u64 {
        self.taken
    }

    /// At this line; what it is about is looked for if the session explains itself.
    pub(crate) fn enter(&mut self, line: &[u8], mode: Mode) {
        self.taken = self.taken.saturating_add(1);
        self.line = self.taken;
        self.list_fault = None;
        if mode.explains {
            self.topic = topic_of(line);
        }
    }

    /// At a line that is longer than a line may be.
    pub(crate) fn enter_long(&mut self) {
        self.taken = self.taken.saturating_add(1);
        self.line = self.taken;
        self.topic = Topic::TooLong;
        self.list_fault = None;
    }

    /// After a line more of a list.
    pub(crate) fn pass_listed(&mut self) {
        self.taken = self.taken.saturating_add(1);
    }

    /// After a line more of a list that lists no event.
    pub(crate) fn pass_unlisted(&mut self) {
        self.taken = self.taken.saturating_add(1);
        if self.list_fault.is_none() {
            self.list_fault = Some(ListFault::Line(self.taken));
        }
    }

    /// Where the input ends in a list.
    pub(crate) fn end_in_list(&mut self) {
        if self.list_fault.is_none() {
            self.list_fault = Some(ListFault::Ended);
        }
    }
}
