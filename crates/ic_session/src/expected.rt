/// The symbols that may be open in a net text, and one more.
const MOST_OPEN: usize = 256;

/// What came last before a byte of a net text.
#[derive(Clone, Copy, Debug, PartialEq, Eq)]
enum Last {
    /// Nothing of this equation.
    Nothing,
    /// A `G` or a `D`.
    Symbol,
    /// A `(`, a `,` or a `=`, after which a term comes.
    Opening,
    /// A whole term.
    Term,
    /// `@straight`.
    Profile,
}

/// How far a net text is before a byte.
#[derive(Clone, Copy)]
struct Reached {
    /// The number of the equation, counted from 1.
    equation: u64,
    /// Whether its `=` came.
    halved: bool,
    /// How many symbols are open.
    depth: usize,
    /// For each of them whether its `,` came.
    open: [bool; MOST_OPEN],
    last: Last,
}

/// In which equation of a net text the end of this front of it stands, counted from 1, and what may come there. The front begins a
/// net text.
pub(crate) fn expected_after(front: &[u8]) -> (u64, &'static str) {
    let mut reached = Reached {
        equation: 1,
        halved: false,
        depth: 0,
        open: [false; MOST_OPEN],
        last: Last::Nothing,
    };
    let mut comment = false;
    for byte in front {
        if comment {
            comment = *byte != b'\n';
        } else if *byte == b'#' {
            comment = true;
        } else {
            reached.take(*byte);
        }
    }
    (reached.equation, reached.expected())
}

impl Reached {
    /// A byte more, outside of comments.
    fn take(&mut self, byte: u8) {
        match byte {
            b'G' | b'D' => self.last = Last::Symbol,
            b'(' => {
                self.depth = self.depth.saturating_add(1);
                self.halve(false);
            }
            b',' => self.halve(true),
            b'=' => {
                self.halved = true;
                self.last = Last::Opening;
            }
            b')' => {
                self.depth = self.depth.saturating_sub(1);
                self.last = Last::Term;
            }
            b';' => self.end(),
            b'@' => self.last = Last::Profile,
            b'E' | b'a'..=b'z' | b'0'..=b'9' | b'_' if self.last != Last::Profile => {
                self.last = Last::Term;
            }
            _ => {}
        }
    }

    /// Whether the innermost open symbol has its `,` now.
    fn halve(&mut self, halved: bool) {
        if let Some(open) = self.open.get_mut(self.depth.saturating_sub(1)) {
            *open = halved;
        }
        self.last = Last::Opening;
    }

    /// The end of an equation, or of the choice of a profile.
    fn end(&mut self) {
        if self.last != Last::Profile {
            self.equation = self.equation.saturating_add(1);
        }
        self.halved = false;
        self.last = Last::Nothing;
    }

    /// What may come next.
    fn expected(&self) -> &'static str {
        match self.last {
            Last::Nothing | Last::Opening => "a term: a name, E, G(TERM,TERM) or D(TERM,TERM)",
            Last::Symbol => "(",
            Last::Profile => ";",
            Last::Term if self.depth == 0 => { if self.halved { ";" } else { "=" } }
            Last::Term => match self.open.get(self.depth - 1) {
                Some(true) => ")",
                _ => ",",
            },
        }
    }
}
