ghost use Rattle.std.specs.Prelude.{◌≡◌, ◌+◌, ◌<◌, ◌≤◌, ◌↔◌, ℕ, List, length, MatchOption, IsTrue};
ghost use Rattle.ic_name.specs.Names.{Name};
ghost use Rattle.ic_shared.specs.Passes.{column as the_column};
ghost use Rattle.ic_shared.specs.Settles.{NumberAt, Confirms};

use crate::receipts::{Receipt, RunReceipt};
use ic_journal::{Bench, Store};
use std::marker::Model;
use std::sync::ledger::{Ledger, Share};

/// The receipts of one caller: those of its calls, and those of its runs of firings, each in their order.
#[derive(Drop)]
pub struct Pass<B: Ledger> {
    pub(crate) share: Share<B>,
    pub(crate) receipts: Vec<Receipt>,
    pub(crate) ran: Vec<RunReceipt>,
}

/// The two columns of a pass: the receipts of its caller's calls, and those of its runs.
#[derive(Clone, Copy, Debug, PartialEq, Eq)]
pub enum Column {
    Calls,
    Runs,
}

impl<B: Ledger> Model for Pass<B> {
    ghost use Rattle.std.specs.Prelude.{◌≡◌, ◌+◌, length};
    ghost use Rattle.ic_shared.specs.Passes.{PassView};

    ghost Value = { PassView };

    ghost view = { λ p. record { receipts = p.receipts.items; ran = p.ran.items } };

    ghost invariant = { λ p. (p.share.parts ≡ 1) × (p.share.amount ≡ length p.receipts.items + length p.ran.items) };
}

impl<B: Ledger> Pass<B> {
    /// The receipts of the caller's calls.
    pub fn receipts(&self) -> &[Receipt]
        ensures { result.now ≡ self.now.receipts }
    {
        self.receipts.as_slice()
    }

    /// The number of the receipt at this place of a column; `None` past the last one.
    pub(crate) fn number_at(&self, column: Column, place: usize) -> Option<u32>
        ensures { (ns : List Name) → MatchOption result (length (the_column ns self.now column) ≤ place) (λ n. NumberAt (the_column ns self.now column) place n) }
    {
        match column {
            Column::Calls => match self.receipts.get(place) {
                Some(receipt) => Some(receipt.number),
                None => None,
            },
            Column::Runs => match self.ran.get(place) {
                Some(receipt) => Some(receipt.number),
                None => None,
            },
        }
    }

    /// The number of the receipt at this place of a column, if it is less than the one given.
    pub(crate) fn less_at(&self, column: Column, place: usize, number: u32) -> Option<u32>
        ensures { (ns : List Name) → MatchOption result ((n : ℕ) → NumberAt (the_column ns self.now column) place n → number ≤ n) (λ n. (n < number) × NumberAt (the_column ns self.now column) place n) }
    {
        match self.number_at(column, place) {
            Some(lesser) => { if lesser < number { Some(lesser) } else { None } }
            None => None,
        }
    }

    /// Whether the receipt at this place of a column has the number.
    pub(crate) fn has_number(&self, column: Column, place: usize, number: u32) -> bool
        ensures { (ns : List Name) → IsTrue result ↔ NumberAt (the_column ns self.now column) place number }
    {
        match self.number_at(column, place) {
            Some(found) => found == number,
            None => false,
        }
    }

    /// Whether the receipt at this place of a column is for the line with the number.
    pub(crate) fn confirms(
        &self,
        column: Column,
        place: usize,
        bench: &Bench<Store>,
        number: u32,
    ) -> bool
        ensures { IsTrue result ↔ Confirms bench.now.lines (the_column bench.now.names self.now column) place number }
    {
        match column {
            Column::Calls => match self.receipts.get(place) {
                Some(receipt) => {
                    receipt.number == number && bench.line_is(number, &receipt.call, receipt.reply)
                }
                None => false,
            },
            Column::Runs => match self.ran.get(place) {
                Some(receipt) => {
                    receipt.number == number && bench.line_is_noted(number, receipt.note)
                }
                None => false,
            },
        }
    }
}
