//! Tests of public calls: stores of links, starts, nets and their texts. A folder is named after the crate whose calls its modules test.
#![tactic(auto)]

#[cfg(test)]
mod link;
#[cfg(test)]
mod made;
#[cfg(test)]
mod net;
#[cfg(test)]
mod start;
#[cfg(test)]
mod table;
#[cfg(test)]
mod text;
