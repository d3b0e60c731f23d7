use crate::mode::Mode;
use crate::prompts::Prompts;
use std::alloc::Global;

/// What a session is run on besides its input and output, and how: threads, memory, a gate that sees each commit of its
/// reductions, a mode, and whether it asks for each line.
#[derive(Drop)]
pub struct Setting<'a, T, G> {
    pub threads: &'a T,
    pub alloc: Global,
    pub gate: &'a G,
    pub mode: Mode,
    pub prompts: Prompts,
}
