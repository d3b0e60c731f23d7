//! Tests of `ic_trace`.

mod histories;
