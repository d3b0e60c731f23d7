//! Tests of public calls: lines and commands, desks with marks, sessions and their faults, the program, and laws. A folder is named after the crate whose calls its modules test.
#![tactic(auto)]

#[cfg(test)]
mod command;
#[cfg(test)]
mod desk;
#[cfg(test)]
mod laws;
#[cfg(test)]
mod program;
#[cfg(test)]
mod session;
