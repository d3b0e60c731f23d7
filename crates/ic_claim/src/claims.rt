ghost use Rattle.std.specs.Prelude.{◌≡◌, ◌≢◌, ℕ, ◌+◌, ◌<◌, ◌≤◌, true, false, length, IfOk, IfSome, IfNone, OnSome, nat_lt, MatchResult, Some, None};
ghost use Rattle.ic_claim.specs.Counts.{one_if, times};
ghost use Rattle.ic_claim.specs.Views.{HasAllHome, new_view, with_ticket, refused, given_one, next_seat, joined};

use crate::limits::{
    CLAIM_WORDS, FIRST_CLAIM_PLACE, MAX_BUDGET, MAX_SEATS, PLACES, STOP_PLACE, TICKET_PLACE,
};
use crate::rule::{ClaimRule, Draw, Home, Leave, Look, NextSeat, Stop, Take};
use crate::seat::Seat;
use crate::view::View;
use atomic_table::Table;
use std::alloc::{AllocError, Global};
use std::marker::Model;

/// The claim word is held.
#[derive(Clone, Copy, Debug, PartialEq, Eq)]
pub struct Busy;

/// A number below the budget, which no other draw gave.
#[derive(Clone, Copy, Debug, PartialEq, Eq)]
pub struct Ticket {
    pub number: u64,
}

/// A table of tickets and claim words, which threads share. Each steps on it by a seat of its own.
#[derive(Drop)]
pub struct Claims {
    table: Table<u64, View, u64, ClaimRule, Global>,
    budget: u64,
}

impl Model for Claims {
    ghost use Rattle.ic_claim.specs.Seats.{ClaimsValue, IsClaims};

    ghost Value = { ClaimsValue };

    ghost view = { λ c. record { table = c.table.shared.table_id; budget = c.budget } };

    ghost invariant = { λ c. IsClaims c.table.shared.table_id c.table.shared.key c.budget };
}

impl Claims {
    /// All claim words free, no ticket drawn, nobody asked to stop; with the seat with number 0. No other call takes
    /// memory.
    pub fn make(alloc: Global, budget: u32) -> Result<(Claims, Seat), AllocError>
        requires { budget ≤ MAX_BUDGET }
        ensures budget { IfOk result (λ made. made.0.budget ≡ budget) }
        ensures table { IfOk result (λ made. made.1.table ≡ made.0.table) }
        ensures seat { IfOk result (λ made. made.1.view ≡ new_view budget 0) }
    {
        let budget = budget as u64;
        let (table, inner) = Table::of_words(alloc, &[0; PLACES], &budget)?;
        Ok((
            Claims { table, budget },
            Seat {
                inner,
                number: 0,
                budget,
                held: None,
                done: false,
                given: 0,
            },
        ))
    }

    /// A ticket that no other draw gave; `None` where none is left, and then at each later call with this seat, which
    /// steps on the table no more.
    pub fn draw(&self, seat: &mut Seat) -> Option<Ticket>
        requires { seat.old.table ≡ self.now.table }
        ensures same { seat.new.table ≡ seat.old.table }
        ensures below { IfSome result (λ ticket. ticket.number < seat.old.view.budget) }
        ensures drawn { IfSome result (λ ticket. seat.new.view ≡ with_ticket seat.old.view ticket.number) }
        ensures not_done { OnSome result (seat.old.view.done ≡ false) }
        ensures refused { IfNone result (seat.new.view ≡ refused seat.old.view) }
        ensures noted { IfNone result (0 < times seat.new.view.number seat.new.view.nones) }
    {
        if seat.done {
            return None;
        }
        let number = self
            .table
            .shared
            .fetch_add::<Draw>(&mut seat.inner, TICKET_PLACE, 1);
        if number < seat.budget {
            Some(Ticket { number })
        } else {
            seat.done = true;
            None
        }
    }

    /// Claims a word, for a seat that holds none. `Busy` where the word was found held.
    pub fn take(&self, seat: &mut Seat, word: u64) -> Result<(), Busy>
        requires table { seat.old.table ≡ self.now.table }
        requires word { word < CLAIM_WORDS }
        requires free { seat.old.view.held ≡ None }
        ensures same { seat.new.table ≡ seat.old.table }
        ensures taken { MatchResult result
            (λ _. seat.new.view ≡ record seat.old.view { held = Some word })
            (λ _. seat.new.view ≡ record seat.old.view { refusals = seat.old.view.refusals + 1 }) }
    {
        let place = word as usize + FIRST_CLAIM_PLACE;
        let found = self
            .table
            .shared
            .compare_exchange::<Take>(&mut seat.inner, place, 0, seat.number + 1);
        if found == 0 {
            seat.held = Some(word);
            Ok(())
        } else {
            Err(Busy)
        }
    }

    /// Frees the word that the seat holds.
    pub fn leave(&self, seat: &mut Seat)
        requires table { seat.old.table ≡ self.now.table }
        requires holds { seat.old.view.held ≢ None }
        ensures same { seat.new.table ≡ seat.old.table }
        ensures freed { seat.new.view ≡ record seat.old.view { held = None } }
    {
        let Some(word) = seat.held else {
            unreachable!()
        };
        let place = word as usize + FIRST_CLAIM_PLACE;
        self.table.shared.store::<Leave>(&mut seat.inner, place, 0);
        seat.held = None;
    }

    /// Asks all seats to stop.
    pub fn stop(&self, seat: &mut Seat)
        requires { seat.old.table ≡ self.now.table }
        ensures same { seat.new.table ≡ seat.old.table }
        ensures asked { seat.new.view ≡ record seat.old.view { stopped = true; stops = seat.old.view.stops + 1 } }
    {
        self.table
            .shared
            .fetch_or::<Stop>(&mut seat.inner, STOP_PLACE, 1);
    }

    /// Says whether some seat asked all to stop. Once a seat knows of it, the answer stays. The step tells of the
    /// seat's tickets too: none is there twice, they are no more than the budget, and all are there once all seats are
    /// home and a draw found none left.
    pub fn is_stopped(&self, seat: &mut Seat) -> bool
        requires { seat.old.table ≡ self.now.table }
        ensures same { seat.new.table ≡ seat.old.table }
        ensures seen { seat.new.view ≡ record seat.old.view { stopped = result } }
        ensures stays { seat.old.view.stopped ≡ true → result ≡ true }
        ensures once { (x : ℕ) → times x seat.old.view.tickets ≤ 1 }
        ensures few { length seat.old.view.tickets ≤ seat.old.view.budget }
        ensures all { HasAllHome seat.old.view
            → (x : ℕ) → times x seat.old.view.tickets ≡ one_if (nat_lt x seat.old.view.budget) }
    {
        self.table.shared.load::<Look>(&mut seat.inner, STOP_PLACE) == 1
    }

    /// A seat with the next number, off the seat with number 0.
    pub fn split(&self, seat: &mut Seat) -> Seat
        requires table { seat.old.table ≡ self.now.table }
        requires first { seat.old.view.number ≡ 0 }
        requires room { seat.old.view.given + 1 < MAX_SEATS }
        ensures tables { (seat.new.table ≡ seat.old.table) × (result.table ≡ seat.old.table) }
        ensures counted { seat.new.view ≡ given_one seat.old.view }
        ensures next { result.view ≡ next_seat seat.old.view }
    {
        let inner = self.table.shared.split_seat::<NextSeat>(&mut seat.inner);
        seat.given += 1;
        Seat {
            inner,
            number: seat.given,
            budget: seat.budget,
            held: None,
            done: false,
            given: 0,
        }
    }

    /// Takes in a seat that holds no word. Its number isn't given again.
    pub fn join(&self, seat: &mut Seat, other: Seat)
        requires tables { (seat.old.table ≡ self.now.table) × (other.table ≡ self.now.table) }
        requires free { other.view.held ≡ None }
        requires later { other.view.number ≢ 0 }
        ensures same { seat.new.table ≡ seat.old.table }
        ensures both { seat.new.view ≡ joined seat.old.view other.view }
    {
        self.table
            .shared
            .join_seat::<Home>(&mut seat.inner, other.inner);
    }
}
