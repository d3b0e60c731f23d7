//! What is written is determined: unless memory runs out, a session has one text, and sweeps and reductions that end normal
//! leave one.

pub mod answers;
pub mod reductions;
pub mod sweeps;
pub mod texts;

pub use answers::{one_answer, one_step, reached_on};
pub use reductions::one_reduction;
pub use sweeps::one_normal_end;
pub use texts::one_text;
