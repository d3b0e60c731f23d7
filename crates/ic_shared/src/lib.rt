//! One bench, many callers: threads share a bench by reference, each with a pass that keeps a receipt for every line that
//! its calls and its runs of firings add to the history. Once the threads are done, settling compares the receipts of all
//! passes with the history.
//!
//! Each bench that is shared has a ledger type of its own, which its passes and its opening carry. So a pass of another
//! `Shared` has another type, and a call with it doesn't compile.
#![tactic(auto)]

pub mod chooser;
pub mod faults;
mod limits;
mod locked;
mod merging;
pub mod opening;
pub mod passes;
pub mod receipts;
pub mod running;
pub mod settling;
pub mod shared;

pub use chooser::Chooser;
pub use faults::{SettleFault, Settled};
pub use limits::MAX_PASSES;
pub use opening::Opening;
pub use passes::{Column, Pass};
pub use receipts::{Receipt, RunReceipt};
pub use running::Ran;
pub use settling::settle;
pub use shared::{Shared, share};

#[cfg(test)]
mod tests;
