ghost use Rattle.std.specs.Prelude.{◌≡◌, ◌≢◌, None, IsTrue, IsFalse};
ghost use Rattle.ic_work.specs.declared.hand.InHand.TheVariants as in_hand;
ghost use Rattle.ic_work.specs.Workers.{Keeps};
ghost use Rattle.ic_work.specs.Hands.{Grips, Stays};

use crate::hints::put_out;
use crate::limits::IN_A_ROW;
use ic_claim::{CLAIM_WORDS, Claims, Seat};
use ic_journal::{ActivePair, Bench, Fired, PairFault, Store};
use ic_name::AgentId;
use ic_shared::Chooser;
use std::collections::VecDeque;

/// What a worker has in hand in a run.
#[derive(Clone, Copy)]
pub(crate) enum InHand {
    Nothing,
    /// A hint, whose word its seat holds.
    Hint(AgentId),
    /// A pair that was fired; the seat holds the word of its hint.
    Fired,
}

/// What a worker chooses by in a run: the agents that it follows, of whom it has one in hand, or none.
#[derive(Drop)]
pub(crate) struct Hand<'a> {
    pub claims: &'a Claims,
    pub seat: &'a mut Seat,
    pub near: &'a mut VecDeque<AgentId>,
    pub in_hand: InHand,
    /// How many firings in a row had the pairs that they made active put first.
    pub in_a_row: u32,
}

/// Claims the word of a hint. It tells whether the word was free.
pub(crate) fn claim(claims: &Claims, seat: &mut Seat, hint: AgentId) -> bool
    requires table { seat.old.table ≡ claims.now.table }
    requires free { seat.old.view.held ≡ None }
    ensures seat { Keeps seat.old seat.new }
    ensures taken { IsTrue result → seat.new.view.held ≢ None }
    ensures busy { IsFalse result → seat.new.view.held ≡ None }
{
    let word = u64::from(hint.slot) % CLAIM_WORDS;
    claims.take(seat, word).is_ok()
}

impl Hand<'_> {
    /// Takes this hint in hand, and not what was, if its word is free; if another worker holds it, the hint goes after the
    /// others, and nothing is in hand. It tells whether the word was free.
    fn reach(&mut self, hint: AgentId) -> bool
        requires table { self.old.seat.now.table ≡ self.old.claims.now.table }
        requires grips { Grips self.old.in_hand self.old.seat.now.view.held }
        ensures grips { Grips self.new.in_hand self.new.seat.now.view.held }
        ensures taken { IsTrue result → self.new.in_hand ≡ in_hand.Hint hint }
        ensures busy { IsFalse result → self.new.in_hand ≡ in_hand.Nothing }
        ensures stays { Stays self.old self.new }
    {
        self.let_go();
        let free = claim(self.claims, self.seat, hint);
        if free {
            self.in_hand = InHand::Hint(hint);
        } else {
            let _ = self.near.push_back(hint);
        }
        free
    }

    /// Leaves the claim word of the hint in hand, if there is one.
    pub fn let_go(&mut self)
        requires table { self.old.seat.now.table ≡ self.old.claims.now.table }
        requires grips { Grips self.old.in_hand self.old.seat.now.view.held }
        ensures empty { (self.new.in_hand ≡ in_hand.Nothing) × (self.new.seat.now.view.held ≡ None) }
        ensures stays { Stays self.old self.new }
    {
        match self.in_hand {
            InHand::Nothing => {}
            InHand::Hint(_) | InHand::Fired => {
                self.claims.leave(self.seat);
                self.in_hand = InHand::Nothing;
            }
        }
    }
}

impl Chooser for Hand<'_> {
    ghost use Rattle.std.specs.Prelude.{◌≡◌};
    ghost use Rattle.ic_work.specs.Hands.{Grips, Stays};

    ghost holds = { λ h. (h.seat.now.table ≡ h.claims.now.table) × Grips h.in_hand h.seat.now.view.held };

    ghost chooses = { λ h bench pair k. Stays h k };

    ghost hears = { λ h answer k. Stays h k };

    /// The pair of the hint in hand, or else of the next that is of one and whose word is free. None comes once each was tried.
    /// A pair is looked up before the word is claimed: that is an atomic step, which waits for all that the last firing wrote,
    /// and the look gives it the time.
    fn choose(&mut self, bench: &Bench<Store>) -> Option<ActivePair> {
        if let InHand::Hint(hint) = self.in_hand {
            let pair = bench.pair_with(hint);
            if pair.is_some() {
                return pair;
            }
        }
        for _tried in 0..self.near.len() {
            let hint = self.near.pop_front()?;
            let pair = bench.pair_with(hint);
            if pair.is_some() && self.reach(hint) {
                return pair;
            }
        }
        None
    }

    /// Takes the leads of the pairs that became active as hints. They come next, because what they need lies in the cache, but after
    /// one firing in so many they come last, so that a run doesn't follow one part of the net alone. The word of the fired pair is
    /// left before the next one is claimed.
    fn hear(&mut self, answer: &Result<Fired, PairFault>) {
        if let InHand::Hint(_) = self.in_hand {
            self.in_hand = InHand::Fired;
        }
        if let Ok(fired) = answer {
            let first = self.in_a_row < IN_A_ROW;
            let any = put_out(self.near, fired.awoken, first);
            self.in_a_row = if first && any { self.in_a_row + 1 } else { 0 };
        }
    }
}
