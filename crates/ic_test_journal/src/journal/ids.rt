use ic_test_games::player::{Game, Player, Step, wins};
use std::alloc::Global;
use std::test::Fail;

const FIRE: &[(Step, u8)] = &[(Step::Fire(b"0", b"2"), 0)];

const FIRE_AGAIN: &[(Step, u8)] = &[(Step::Undo(0), 0), (Step::Fire(b"0", b"2"), 0)];

/// The id of an agent is kept while the event that made the agent is undone and fired again.
struct KeptId;

impl Game for KeptId {
    fn is_won(&self, _alloc: Global, player: &mut Player) -> Result<bool, Fail> {
        if !player.plays(FIRE)? {
            return Ok(false);
        }
        let old = player.agent(b"0.0")?;
        if !player.plays(FIRE_AGAIN)? {
            return Ok(false);
        }
        let is_another = player.agent(b"0.0")? != old;
        let has_no_name = player.bench.name_of(old)?.is_none();
        let refusal = match player.bench.propose(player.agent(b"1")?, old) {
            Ok(_) => 0,
            Err(fault) => fault.number(),
        };
        Ok(is_another && has_no_name && refusal == 21)
    }
}

#[test]
fn an_agent_that_comes_again_has_another_id(rt: HostRuntime) -> Result<(), Fail> {
    assert!(rt; wins(rt.alloc(), b"G(E,a) = D(b,E);", &KeptId)?);
    Ok(())
}
