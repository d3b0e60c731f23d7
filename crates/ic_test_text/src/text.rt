//! Tests of `ic_text`.

mod print;
mod profiles;
mod read;
