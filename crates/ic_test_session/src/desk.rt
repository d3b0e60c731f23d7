//! Tests of `ic_desk`.

mod desks;
mod gates;
mod refused_growth;
mod undos_with_room;
