ghost use Rattle.std.specs.Prelude.{◌≡◌, ◌≢◌, ◌+◌, ◌≤◌, None};
ghost use Rattle.ic_work.specs.Workers.{DrawsMore, IsFree, Keeps, MayFire, Works, WorksOn};

use crate::floor::Floor;
use crate::hand::{Hand, InHand, claim};
use crate::hints::{Hint, Sources, agent_of, gather, put_back};
use crate::limits::{MAX_BUSY, MOST};
use crate::tickets::Unused;
use crossbeam_deque::Worker as Deque;
use ic_claim::Seat;
use ic_journal::Gate;
use ic_name::AgentId;
use ic_shared::{Pass, Ran};
use std::collections::VecDeque;
use std::sync::Wait;
use std::sync::ledger::Ledger;

/// A worker of a sweep. It has the number that the gate knows it by, hints of pairs that may be active, a seat at the claims,
/// and a pass for its calls on the bench.
#[derive(Drop)]
pub(crate) struct Worker<B: Ledger> {
    pub number: usize,
    pub hints: Deque<Hint>,
    /// The place of its hints among those of all.
    pub place: usize,
    /// The agents that a run follows; none between runs.
    pub near: VecDeque<AgentId>,
    pub seat: Seat,
    pub pass: Pass<B>,
}

/// What a worker does after a turn.
enum Then {
    /// It takes the next hint.
    GoOn,
    /// Its hint's word was busy: it takes another hint.
    PassBy,
    /// There is no hint or no ticket, or all were asked to stop.
    GoHome,
}

impl<B: Ledger> Worker<B> {
    /// Fires what hints name, until there is no hint, no ticket, or all were asked to stop, or `MAX_BUSY` hints in a row were busy.
    pub fn work<G: Gate, R: Wait>(&mut self, rt: &R, floor: &Floor<'_, B, G>)
        requires { IsFree floor.now.claims.now.table self.old.seat }
        ensures { Works self.old.seat self.old.pass self.new.seat self.new.pass }
    {
        let mut unused = Unused::none();
        let mut busy = 0u32;
        for _ in rt.forever() {
            match self.turn(rt, floor, &mut unused, busy) {
                Then::GoOn => busy = 0,
                Then::PassBy if busy < MAX_BUSY => busy += 1,
                Then::PassBy | Then::GoHome => return,
            }
        }
    }

    /// Takes a hint, claims its word, and fires what it and the worker's own hints name. Tickets that aren't used are kept. So many
    /// hints in a row were busy before.
    fn turn<G: Gate, R: Wait>(
        &mut self,
        rt: &R,
        floor: &Floor<'_, B, G>,
        unused: &mut Unused,
        busy: u32,
    ) -> Then
        requires { IsFree floor.now.claims.now.table self.old.seat }
        ensures { WorksOn unused.old.count self.old.seat self.old.pass unused.new.count self.new.seat self.new.pass }
    {
        if floor.claims.is_stopped(&mut self.seat) {
            return Then::GoHome;
        }
        let mut sources = Sources {
            own: &mut self.hints,
            all: floor.hints,
            place: self.place,
        };
        let Some(found) = sources.find(rt, busy) else {
            return Then::GoHome;
        };
        let Some(agent) = agent_of(&mut self.hints, floor.leads, found) else {
            return Then::GoOn;
        };
        if claim(floor.claims, &mut self.seat, agent) {
            return self.follow(rt, floor, unused, agent);
        }
        let _ = self.hints.push(Hint::Agent(agent));
        Then::PassBy
    }

    /// Draws tickets and fires by them, beginning with a hint whose word the seat holds.
    fn follow<G: Gate, R: Wait>(
        &mut self,
        rt: &R,
        floor: &Floor<'_, B, G>,
        unused: &mut Unused,
        hint: AgentId,
    ) -> Then
        requires table { self.old.seat.table ≡ floor.now.claims.now.table }
        requires holds { self.old.seat.view.held ≢ None }
        ensures { WorksOn unused.old.count self.old.seat self.old.pass unused.new.count self.new.seat self.new.pass }
    {
        self.draw(floor, unused);
        if unused.count == 0 {
            floor.claims.leave(&mut self.seat);
            return Then::GoHome;
        }
        gather(&mut self.hints, floor.leads, unused.count, &mut self.near);
        let ran = self.fire(rt, floor, hint, unused.count);
        put_back(&mut self.hints, &mut self.near);
        self.use_up(floor, unused, ran.calls);
        if ran.refused {
            floor.claims.stop(&mut self.seat);
            return Then::GoHome;
        }
        Then::GoOn
    }

    /// Draws tickets one by one, until a run may use no more, and tells the gate of each.
    fn draw<G: Gate>(&mut self, floor: &Floor<'_, B, G>, unused: &mut Unused)
        requires { self.old.seat.table ≡ floor.now.claims.now.table }
        ensures drawn { DrawsMore self.old.seat unused.old.count self.new.seat unused.new.count }
        ensures pass { self.new.pass ≡ self.old.pass }
    {
        while unused.count < floor.most.min(MOST) {
            let Some(ticket) = floor.claims.draw(&mut self.seat) else {
                return;
            };
            unused.push(ticket);
            floor.gate.before_commit(self.number, ticket.number);
        }
    }

    /// Fires the event of a hint whose word the seat holds, and then what the hints near name, at most so many events, under one
    /// lock. The seat then holds no word.
    fn fire<G: Gate, R: Wait>(
        &mut self,
        rt: &R,
        floor: &Floor<'_, B, G>,
        hint: AgentId,
        most: usize,
    ) -> Ran
        requires table { self.old.seat.table ≡ floor.now.claims.now.table }
        requires holds { self.old.seat.view.held ≢ None }
        ensures seat { Keeps self.old.seat self.new.seat }
        ensures free { self.new.seat.view.held ≡ None }
        ensures pass { MayFire result.calls self.old.pass self.new.pass }
        ensures most { result.calls ≤ most }
    {
        let Worker {
            seat,
            near,
            pass,
            ..
        } = self;
        let mut hand = Hand {
            claims: floor.claims,
            seat,
            near,
            in_hand: InHand::Hint(hint),
            in_a_row: 0,
        };
        let ran = floor.shared.fire_run(rt, pass, &mut hand, most);
        hand.let_go();
        ran
    }

    /// Uses so many tickets up, and tells the gate of each.
    fn use_up<G: Gate>(&self, floor: &Floor<'_, B, G>, unused: &mut Unused, calls: usize)
        requires { calls ≤ unused.old.count }
        ensures { unused.new.count + calls ≡ unused.old.count }
    {
        for _made in 0..calls {
            if let Some(ticket) = unused.pop() {
                floor.gate.after_commit(self.number, ticket.number);
            }
        }
    }
}
