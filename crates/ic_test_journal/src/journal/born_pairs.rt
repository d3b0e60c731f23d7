use ic_journal::ActivePair;
use ic_test_games::events::COPYING;
use ic_test_games::player::{Game, Player, Step, wins};
use std::alloc::Global;
use std::test::Fail;

/// The names of the two agents of an active pair, the lesser one first.
type PairNames = (&'static [u8], &'static [u8]);

/// Steps that are all taken, and for each firing so far the active pairs that its event makes then.
type Round = (&'static [(Step, u8)], &'static [&'static [PairNames]]);

/// Rounds, one after the other.
struct BornPairs(&'static [Round]);

impl Game for BornPairs {
    fn is_won(&self, alloc: Global, player: &mut Player) -> Result<bool, Fail> {
        for (steps, rows) in self.0 {
            if !player.plays(steps)? || !make_these(alloc, player, rows)? {
                return Ok(false);
            }
        }
        Ok(true)
    }
}

/// Whether the event of each firing makes the active pairs of its row, and no others.
fn make_these(alloc: Global, player: &Player, rows: &[&[PairNames]]) -> Result<bool, Fail> {
    for number in 0..rows.len() {
        let names = rows[number];
        let born = player.bench.born_pairs(player.id(number)?);
        let pairs = pairs_of(alloc, player, names)?;
        if !are_all_in(&pairs, &born) || !has_no_others(&born, &pairs) {
            return Ok(false);
        }
    }
    Ok(true)
}

/// The pairs of these names.
fn pairs_of(
    alloc: Global,
    player: &Player,
    names: &[PairNames],
) -> Result<Vec<Option<ActivePair>>, Fail> {
    let mut pairs = Vec::new(alloc);
    for (lead, other) in names {
        pairs.push(Some(ActivePair {
            lead: player.agent(lead)?,
            other: player.agent(other)?,
        }))?;
    }
    Ok(pairs)
}

/// Whether each of these pairs was born.
fn are_all_in(pairs: &[Option<ActivePair>], born: &[Option<ActivePair>]) -> bool {
    for pair in pairs {
        if !born.contains(pair) {
            return false;
        }
    }
    true
}

/// Whether each pair that was born is one of these.
fn has_no_others(born: &[Option<ActivePair>], pairs: &[Option<ActivePair>]) -> bool {
    for pair in born {
        if pair.is_some() && !pairs.contains(pair) {
            return false;
        }
    }
    true
}

/// A gamma meets a delta, each with an epsilon beside it. Two epsilons meet children then, and two of their children meet over
/// links of all three events. At the end the last two events are undone.
const ROUNDS: &[Round] = &[
    (
        &[(Step::Fire(b"0", b"2"), 0)],
        &[&[(b"1", b"0.0"), (b"3", b"0.3")]],
    ),
    (&[(Step::Fire(b"1", b"0.0"), 0)], &[&[(b"3", b"0.3")], &[]]),
    (
        &[(Step::Fire(b"3", b"0.3"), 0)],
        &[
            &[(b"1.1", b"3.0")],
            &[(b"1.1", b"3.0")],
            &[(b"1.1", b"3.0")],
        ],
    ),
    (&[(Step::Fire(b"1.1", b"3.0"), 0)], &[&[], &[], &[], &[]]),
    (
        &[(Step::Undo(3), 0), (Step::Undo(2), 0)],
        &[&[(b"3", b"0.3")], &[], &[], &[]],
    ),
];

#[test]
fn an_event_makes_the_pairs_that_rest_on_its_links(rt: HostRuntime) -> Result<(), Fail> {
    assert!(rt; wins(rt.alloc(), COPYING, &BornPairs(ROUNDS))?);
    Ok(())
}
