//! Tests of public calls: names, tables of names and queues over them, and rosters of agents and events. A folder is named after the crate whose calls its modules test.
#![tactic(auto)]

#[cfg(test)]
mod name;
#[cfg(test)]
mod names;
#[cfg(test)]
mod roster;
