ghost use Rattle.std.specs.Prelude.{◌≡◌, ◌+◌, ◌<◌, ◌≤◌};
ghost use Rattle.ic_shared.specs.declared.limits.TheConstants.{MAX_PASSES};

use ic_journal::EarlierLines;
use ic_start::Start;
use std::marker::{Model, PhantomData};
use std::sync::ledger::{Ledger, Share};

/// Into how many passes a ledger is cut, beside the part of the opening.
#[derive(Drop)]
pub(crate) struct Count<B: Ledger> {
    pub(crate) passes: u32,
    of: PhantomData<B>,
    ghost all: { passes + 1 ≡ B.parts },
    ghost some: { (0 < passes) × (passes ≤ MAX_PASSES) },
}

impl<B: Ledger> Count<B> {
    /// So many passes.
    pub fn new(passes: u32) -> Count<B>
        requires all { passes + 1 ≡ B.parts }
        requires some { (0 < passes) × (passes ≤ MAX_PASSES) }
        ensures { result.passes ≡ passes }
    {
        Count {
            passes,
            of: PhantomData,
        }
    }
}

/// What a bench was when it was shared: its start and its history, and how many passes were given out.
#[derive(Drop)]
pub struct Opening<B: Ledger> {
    pub(crate) start: Start,
    pub(crate) lines: EarlierLines,
    pub(crate) count: Count<B>,
    pub(crate) share: Share<B>,
}

impl<B: Ledger> Model for Opening<B> {
    ghost use Rattle.std.specs.Prelude.{◌≡◌, length};
    ghost use Rattle.ic_shared.specs.Openings.{OpeningView, opened};

    ghost Value = { OpeningView };

    ghost view = { λ o. opened o.start o.lines o.count.passes };

    ghost invariant = { λ o. (o.share.parts ≡ 1) × (o.share.amount ≡ length o.lines) };
}
