use ic_test_games::player::{Game, Player, Step, wins};
use ic_undo::{Counts, Mark, back, mark};
use std::alloc::Global;
use std::test::Fail;

/// Whether the bench goes back to a mark by so many undoings and firings.
fn goes(alloc: Global, player: &mut Player, mark: &Mark, undone: u32, fired: u32) -> bool {
    if !mark.fits(&player.bench) {
        return false;
    }
    match back(alloc, &mut player.bench, mark) {
        Ok(counts) => counts == Counts { undone, fired },
        Err(_) => false,
    }
}

const FIRE: [(Step, u8); 1] = [(Step::Fire(b"0", b"1"), 0)];

const UNDO: [(Step, u8); 1] = [(Step::Undo(0), 0)];

/// Fires an event, marks that it stands and undoes it, and answers whether the bench goes back to the mark.
fn goes_to_one(alloc: Global, player: &mut Player) -> Result<bool, Fail> {
    let fired = player.plays(&FIRE)?;
    let one = mark(alloc, &player.bench)?;
    Ok(fired && one.event_count() == 1 && player.plays(&UNDO)? && goes(alloc, player, &one, 0, 1))
}

/// The bench is marked before its first event, goes back to what stood after it, and then to the mark.
struct BackToMarks;

impl Game for BackToMarks {
    fn is_won(&self, alloc: Global, player: &mut Player) -> Result<bool, Fail> {
        let nothing = mark(alloc, &player.bench)?;
        Ok(
            nothing.event_count() == 0
                && goes_to_one(alloc, player)?
                && goes(alloc, player, &nothing, 1, 0),
        )
    }
}

#[test]
fn a_bench_goes_back_to_its_marks(rt: HostRuntime) -> Result<(), Fail> {
    assert!(rt; wins(rt.alloc(), b"G(x,a) = D(x,b);", &BackToMarks)?);
    Ok(())
}
