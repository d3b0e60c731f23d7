use ic_journal::{End, NoGate, fire_least};
use ic_test_games::calls::fired;
use ic_test_games::player::{Game, Player, wins};
use std::alloc::Global;
use std::test::Fail;

/// So many active pairs with free names of their own. Each event of one makes an active pair again.
fn copies(alloc: Global, count: u32) -> Result<Vec<u8>, Fail> {
    let mut text = Vec::new(alloc);
    for number in 0..count {
        let copy = format!(in alloc; "G(x{number},a{number}) = D(x{number},b{number});\n")?;
        text.extend_from_slice(copy.as_bytes())?;
    }
    Ok(text)
}

/// The number of the refusal of the active pair with the least lead, or 0.
fn fire_least_pair(player: &mut Player) -> Result<u8, Fail> {
    let Some(pair) = player.bench.least_active() else {
        return Err("an active pair".into());
    };
    match fired(&mut player.bench, pair.lead, pair.other)? {
        Ok(_) => Ok(0),
        Err(number) => Ok(number),
    }
}

/// So many events are fired, each time the one with the least lead, and the next firing is refused with this number.
#[derive(Drop)]
struct Firings(u32, u8);

impl Game for Firings {
    fn is_won(&self, _alloc: Global, player: &mut Player) -> Result<bool, Fail> {
        let reduction = fire_least(&mut player.bench, self.0, &NoGate, 0);
        Ok(
            reduction == (self.0, End::Budget)
                && fire_least_pair(player)? == self.1
                && player.bench.standing_count() == self.0 as usize,
        )
    }
}

#[test]
fn the_firing_past_the_most_agents_is_refused(rt: HostRuntime) -> Result<(), Fail> {
    let text = copies(rt.alloc(), 65)?;
    assert!(rt; wins(rt.alloc(), &text, &Firings(65_503, 23))?);
    Ok(())
}
