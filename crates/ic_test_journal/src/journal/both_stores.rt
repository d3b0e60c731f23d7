use crate::orders::orders_agree;
use ic_journal::{Bench, Store};
use ic_link::LinkRows;
use ic_name::AgentId;
use ic_test_games::answers::{answer_of, answers};
use ic_test_games::calls::{fired, some_agents, some_event};
use ic_test_games::numbers::Numbers;
use ic_test_games::player::{Game, Player, wins};
use ic_test_games::random_nets::some_net;
use ic_text::read_net;
use std::alloc::Global;
use std::test::Fail;

/// A bench over the net of a text.
fn bench_over(alloc: Global, text: &[u8]) -> Result<Bench<LinkRows>, Fail> {
    let start = read_net(alloc, text)?;
    Ok(Bench::over(alloc, start)?)
}

/// Whether a bench over either store answers one firing alike.
fn fire(
    plain: &mut Bench<LinkRows>,
    fast: &mut Bench<Store>,
    lead: AgentId,
    other: AgentId,
) -> Result<bool, Fail> {
    let first = fired(plain, lead, other)?;
    let second = fired(fast, lead, other)?;
    Ok(first == second)
}

/// Whether both answer alike to the firing of two agents of active pairs, if there are any.
fn fire_some(
    plain: &mut Bench<LinkRows>,
    fast: &mut Bench<Store>,
    numbers: &mut Numbers,
) -> Result<bool, Fail> {
    match some_agents(plain, numbers)? {
        Some((lead, other)) => fire(plain, fast, lead, other),
        None => Ok(true),
    }
}

/// Whether both answer some call alike: an undo, or a firing.
fn call(
    plain: &mut Bench<LinkRows>,
    fast: &mut Bench<Store>,
    numbers: &mut Numbers,
) -> Result<bool, Fail> {
    if numbers.below(3) != 0 {
        return fire_some(plain, fast, numbers);
    }
    match some_event(plain, numbers)? {
        Some(id) => Ok(plain.undo(id) == fast.undo(id)),
        None => fire_some(plain, fast, numbers),
    }
}

/// Whether both answer the command alike.
fn answer(
    alloc: Global,
    plain: &mut Bench<LinkRows>,
    fast: &mut Bench<Store>,
    line: &[u8],
) -> Result<bool, Fail> {
    let first = answer_of(alloc, plain, line)?;
    answers(alloc, fast, line, first.bytes())
}

/// Whether both show the same net, pairs and journal.
fn show_the_same(
    alloc: Global,
    plain: &mut Bench<LinkRows>,
    fast: &mut Bench<Store>,
) -> Result<bool, Fail> {
    for line in [b"net".as_slice(), b"active", b"journal"] {
        if !answer(alloc, plain, fast, line)? {
            return Ok(false);
        }
    }
    Ok(true)
}

/// Whether they do after each of some calls, and replays of causal orders of what stands then lead to that net, which is
/// read off the store.
fn agree(
    alloc: Global,
    plain: &mut Bench<LinkRows>,
    fast: &mut Bench<Store>,
    numbers: &mut Numbers,
) -> Result<bool, Fail> {
    for _ in 0..40 {
        if !call(plain, fast, numbers)? || !show_the_same(alloc, plain, fast)? {
            return Ok(false);
        }
    }
    Ok(orders_agree(alloc, fast)? && answer(alloc, plain, fast, b"undo-all")?)
}

/// A bench over the other store, and the net of this text, shows the same after some calls, which ones by a number.
#[derive(Drop)]
struct SameShown<'a>(&'a [u8], u32);

impl<'a> Game for SameShown<'a> {
    fn is_won(&self, alloc: Global, player: &mut Player) -> Result<bool, Fail> {
        let mut numbers = Numbers::from_seed(self.1);
        let mut plain = bench_over(alloc, self.0)?;
        agree(alloc, &mut plain, &mut player.bench, &mut numbers)
    }
}

/// Whether both show the same over some net, which one by a number.
fn agree_over_some_net(alloc: Global, seed: u32) -> Result<bool, Fail> {
    let mut numbers = Numbers::from_seed(seed);
    let text = some_net(alloc, &mut numbers)?;
    wins(alloc, &text, &SameShown(&text, numbers.last()))
}

#[test]
fn both_stores_show_the_same(rt: HostRuntime) -> Result<(), Fail> {
    for seed in 0..20u32 {
        assert!(rt; agree_over_some_net(rt.alloc(), seed)?);
    }
    Ok(())
}
