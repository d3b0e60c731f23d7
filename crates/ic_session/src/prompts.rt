use ic_command::write_reply;
use ic_desk::Desk;
use ic_journal::Store;
use std::alloc::{AllocError, Global};
use std::io::Write;

/// What a session asks for by a prompt.
#[derive(Clone, Copy, Debug, PartialEq, Eq)]
pub enum Prompts {
    /// Nothing.
    Silent,
    /// Each line after the next so many, as at a terminal.
    After(u64),
}

impl Prompts {
    /// What it asks for once so many lines more were taken.
    pub(crate) fn after(self, lines: u64) -> Prompts {
        match self {
            Prompts::Silent => Prompts::Silent,
            Prompts::After(left) => Prompts::After(left.saturating_sub(lines)),
        }
    }
}

/// Asks for a line of the net text, if the session asks for the next line. If the writer fails, that is left out.
pub(crate) fn ask_for_net<E: Write>(errors: &mut E, prompts: Prompts) {
    if prompts == Prompts::After(0) {
        let _ = write_reply(errors, b"net> ");
    }
}

/// Asks for a command, if the session asks for the next line. If the writer fails, that is left out.
pub(crate) fn ask_for_command<E: Write>(errors: &mut E, prompts: Prompts) {
    if prompts == Prompts::After(0) {
        let _ = write_reply(errors, b"icbench> ");
    }
}

/// Says that a net of so many agents was read, if the session asks for lines. If memory runs out or the writer fails, that is
/// left out.
pub(crate) fn greet<E: Write>(
    alloc: Global,
    errors: &mut E,
    agents: usize,
    desk: &Desk<Store>,
    prompts: Prompts,
) {
    if prompts != Prompts::Silent {
        if let Ok(text) = greeting(alloc, agents, desk) {
            let _ = write_reply(errors, &text);
        }
    }
}

/// What is said of a net that was read.
fn greeting(alloc: Global, agents: usize, desk: &Desk<Store>) -> Result<Vec<u8>, AllocError> {
    let pairs = desk.active_pairs()?;
    Ok(format!(in alloc;
        "net read: {} {}, {} active {}; help lists the commands\n",
        agents,
        word_for(agents, "agent", "agents"),
        pairs,
        word_for(pairs, "pair", "pairs")
    )?
    .into_bytes())
}

/// The word for one thing or for several.
fn word_for(count: usize, one: &'static str, several: &'static str) -> &'static str {
    if count == 1 { one } else { several }
}
