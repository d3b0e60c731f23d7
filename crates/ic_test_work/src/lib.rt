//! Tests of public calls: benches that threads share, and sweeps. A folder is named after the crate whose calls its modules test.
#![tactic(auto)]

#[cfg(test)]
mod benches;
#[cfg(test)]
mod shared;
#[cfg(test)]
mod trace;
#[cfg(test)]
mod turns;
#[cfg(test)]
mod work;
