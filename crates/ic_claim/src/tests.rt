ghost use Rattle.std.specs.Prelude.{◌≡◌, ℕ, ◌≤◌, ◌++◌, IfOk, IfSome, MatchBool, None, Some, nat_lt, ◌<◌};
ghost use Rattle.ic_claim.specs.Counts.{one_if, times};
ghost use Rattle.ic_claim.specs.Views.{new_view, given_one, next_seat};

use crate::{
    CLAIM_WORDS, Claims, MAX_BUDGET, MAX_SEATS, Seat, Ticket, each_ticket_is_drawn_once,
    one_holder, ticket_word_never_wraps,
};
use std::alloc::{AllocError, Global};
use std::test::Fail;
use std::thread::{Threads, join};

/// A seat, and the numbers that it drew.
#[derive(Drop)]
struct Drawn {
    seat: Seat,
    numbers: Vec<u64>,
}

/// Draws until there is no ticket left, and claims a word for each.
fn draw_all(alloc: Global, claims: &Claims, mut seat: Seat, most: u32) -> Result<Drawn, AllocError>
    requires { (seat.table ≡ claims.now.table) × (seat.view.held ≡ None) }
    ensures table { IfOk result (λ drawn. drawn.seat.table ≡ claims.now.table) }
    ensures free { IfOk result (λ drawn. drawn.seat.view.held ≡ None) }
    ensures number { IfOk result (λ drawn. drawn.seat.view.number ≡ seat.view.number) }
    ensures budget { IfOk result (λ drawn. drawn.seat.view.budget ≡ seat.view.budget) }
    ensures counts { IfOk result (λ drawn.
        (drawn.seat.view.given ≡ seat.view.given) × (drawn.seat.view.homes ≡ seat.view.homes)) }
    ensures numbers { IfOk result (λ drawn. drawn.seat.view.tickets ≡ seat.view.tickets ++ drawn.numbers.items) }
{
    let mut numbers = Vec::new(alloc);
    for _draw in 0..most {
        if claims.is_stopped(&mut seat) {
            break;
        }
        let Some(ticket) = claims.draw(&mut seat) else {
            break;
        };
        numbers.push(ticket.number)?;
        if claims.take(&mut seat, ticket.number % 4).is_ok() {
            claims.leave(&mut seat);
        }
    }
    Ok(Drawn { seat, numbers })
}

/// What two threads draw from one budget: each number below it once. `None` where they leave a ticket.
fn drawn_by_two<R: Threads + Sync>(
    rt: &R,
    alloc: Global,
    budget: u32,
    most: u32,
) -> Result<Option<(Vec<u64>, Vec<u64>)>, AllocError>
    requires { budget ≤ MAX_BUDGET }
    ensures { IfOk result (λ r. IfSome r (λ drawn.
        (x : ℕ) → times x (drawn.0.items ++ drawn.1.items) ≡ one_if (nat_lt x budget))) }
{
    let (claims, mut first) = Claims::make(alloc, budget)?;
    let second = claims.split(&mut first);
    let (one, two) = join(
        rt,
        || -> Result<Drawn, AllocError>
            requires table { first.table ≡ claims.table }
            requires seat { first.view ≡ given_one (new_view claims.budget 0) }
            ensures table { IfOk result (λ drawn. drawn.seat.table ≡ claims.table) }
            ensures number { IfOk result (λ drawn. drawn.seat.view.number ≡ 0) }
            ensures budget { IfOk result (λ drawn. drawn.seat.view.budget ≡ claims.budget) }
            ensures counts { IfOk result (λ drawn. (drawn.seat.view.given ≡ 1) × (drawn.seat.view.homes ≡ 0)) }
            ensures numbers { IfOk result (λ drawn. drawn.seat.view.tickets ≡ drawn.numbers.items) }
        { draw_all(alloc, &claims, first, most) },
        || -> Result<Drawn, AllocError>
            requires table { second.table ≡ claims.table }
            requires seat { second.view ≡ next_seat (new_view claims.budget 0) }
            ensures table { IfOk result (λ drawn. drawn.seat.table ≡ claims.table) }
            ensures seat { IfOk result (λ drawn.
                (drawn.seat.view.held ≡ None) × (drawn.seat.view.number ≡ 1) × (drawn.seat.view.homes ≡ 0)) }
            ensures numbers { IfOk result (λ drawn. drawn.seat.view.tickets ≡ drawn.numbers.items) }
        { draw_all(alloc, &claims, second, most) },
    );
    let Drawn { mut seat, numbers } = one?;
    let home = two?;
    claims.join(&mut seat, home.seat);
    if claims.draw(&mut seat).is_some() {
        return Ok(None);
    }
    claims.is_stopped(&mut seat);
    Ok(Some((numbers, home.numbers)))
}

/// Whether a seat draws just these numbers, in turn; none where no ticket is left.
fn draws(claims: &Claims, seat: &mut Seat, numbers: &[Option<u64>]) -> bool
    requires { seat.old.table ≡ claims.now.table }
    ensures same { seat.new.table ≡ seat.old.table }
    ensures held { seat.new.view.held ≡ seat.old.view.held }
    ensures number { (seat.new.view.number ≡ seat.old.view.number) × (seat.new.view.given ≡ seat.old.view.given) }
{
    for number in numbers {
        let drawn = claims.draw(seat).map(|ticket| ticket.number);
        if drawn != *number {
            return false;
        }
    }
    true
}

#[test]
fn two_seats_draw_each_number_once(rt: HostRuntime) -> Result<(), Fail> {
    let (claims, mut first) = Claims::make(rt.alloc(), 5)?;
    let mut second = claims.split(&mut first);
    assert!(rt; draws(&claims, &mut first, &[Some(0)]));
    assert!(rt; draws(&claims, &mut second, &[Some(1), Some(2)]));
    assert!(rt; draws(&claims, &mut first, &[Some(3)]));
    assert!(rt; draws(&claims, &mut second, &[Some(4), None]));
    assert!(rt; draws(&claims, &mut first, &[None, None]));
    Ok(())
}

#[test]
fn a_budget_of_none_gives_no_ticket(rt: HostRuntime) -> Result<(), Fail> {
    let (claims, mut seat) = Claims::make(rt.alloc(), 0)?;
    assert!(rt; draws(&claims, &mut seat, &[None]));
    Ok(())
}

/// Whether a seat that holds no word can claim this one.
fn takes(claims: &Claims, seat: &mut Seat, word: u64) -> bool
    requires table { seat.old.table ≡ claims.now.table }
    requires word { word < CLAIM_WORDS }
    requires free { seat.old.view.held ≡ None }
    ensures same { seat.new.table ≡ seat.old.table }
    ensures held { MatchBool result (seat.new.view.held ≡ Some word) (seat.new.view.held ≡ None) }
{
    claims.take(seat, word).is_ok()
}

#[test]
fn a_held_word_is_busy_until_it_is_left(rt: HostRuntime) -> Result<(), Fail> {
    let (claims, mut first) = Claims::make(rt.alloc(), 1)?;
    let mut second = claims.split(&mut first);
    assert!(rt; takes(&claims, &mut first, 7));
    assert!(rt; !takes(&claims, &mut second, 7));
    claims.leave(&mut first);
    assert!(rt; takes(&claims, &mut second, 7));
    Ok(())
}

#[test]
fn a_seat_claims_another_word_than_one_that_is_held(rt: HostRuntime) -> Result<(), Fail> {
    let (claims, mut first) = Claims::make(rt.alloc(), 1)?;
    let mut second = claims.split(&mut first);
    assert!(rt; takes(&claims, &mut second, 7));
    assert!(rt; !takes(&claims, &mut first, 7));
    assert!(rt; takes(&claims, &mut first, 0));
    claims.leave(&mut first);
    assert!(rt; takes(&claims, &mut first, CLAIM_WORDS - 1));
    Ok(())
}

#[test]
fn the_number_of_a_seat_that_came_home_is_not_given_again(rt: HostRuntime) -> Result<(), Fail> {
    let (claims, mut first) = Claims::make(rt.alloc(), 3)?;
    let mut second = claims.split(&mut first);
    assert!(rt; first.number() == 0 && second.number() == 1);
    assert!(rt; draws(&claims, &mut second, &[Some(0)]));
    claims.join(&mut first, second);
    assert!(rt; claims.split(&mut first).number() == 2);
    assert!(rt; draws(&claims, &mut first, &[Some(1)]));
    Ok(())
}

/// Whether a seat hears of a stop.
fn hears(claims: &Claims, seat: &mut Seat) -> bool
    requires { seat.old.table ≡ claims.now.table }
    ensures { seat.new.table ≡ seat.old.table }
{
    claims.is_stopped(seat)
}

#[test]
fn a_stop_is_seen_by_the_other_seat(rt: HostRuntime) -> Result<(), Fail> {
    let (claims, mut first) = Claims::make(rt.alloc(), 3)?;
    let mut second = claims.split(&mut first);
    assert!(rt; draws(&claims, &mut first, &[Some(0)]));
    assert!(rt; !hears(&claims, &mut first) && !hears(&claims, &mut second));
    claims.stop(&mut second);
    assert!(rt; hears(&claims, &mut first) && hears(&claims, &mut second));
    Ok(())
}

#[test]
fn a_stop_lasts(rt: HostRuntime) -> Result<(), Fail> {
    let (claims, mut first) = Claims::make(rt.alloc(), 3)?;
    let mut second = claims.split(&mut first);
    claims.stop(&mut second);
    claims.stop(&mut first);
    assert!(rt; hears(&claims, &mut second));
    Ok(())
}

#[test]
fn the_most_seats_and_tickets(rt: HostRuntime) -> Result<(), Fail> {
    one_holder();
    each_ticket_is_drawn_once();
    ticket_word_never_wraps();
    let (claims, mut first) = Claims::make(rt.alloc(), MAX_BUDGET)?;
    for number in 1..MAX_SEATS {
        assert_eq!(rt; claims.split(&mut first).number(), number);
    }
    assert_eq!(rt; claims.draw(&mut first), Some(Ticket { number: 0 }));
    Ok(())
}

#[test]
fn two_threads_draw_all_numbers_once_between_them(rt: HostRuntime) -> Result<(), Fail> {
    let (mut drawn, more) = drawn_by_two(&rt, rt.alloc(), 1_000, 2_000)?.ok_or(
        "no ticket is left",
    )?;
    for number in more.iter() {
        drawn.push(*number)?;
    }
    drawn.sort()?;
    assert_eq!(rt; drawn.len(), 1_000);
    for (place, number) in drawn.iter().enumerate() {
        assert_eq!(rt; *number, place as u64);
    }
    Ok(())
}
