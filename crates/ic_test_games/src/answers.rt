use ic_answer::{Answer, carry_out};
use ic_command::{Asked, Command, Request, asked_of};
use ic_journal::{Bench, LinkStore, NoGate};
use std::alloc::Global;
use std::test::Fail;

/// What a bench answers to a command. A line that asks for something else is no command.
pub fn answer_of<L: LinkStore>(
    alloc: Global,
    bench: &mut Bench<L>,
    line: &[u8],
) -> Result<Answer, Fail> {
    let command = match asked_of(alloc, line)? {
        Asked::Alone(Request::Bench(command)) => command,
        _other => Command::Malformed,
    };
    Ok(carry_out(alloc, bench, command, &NoGate)?)
}

/// Whether a bench answers a command so.
pub fn answers<L: LinkStore>(
    alloc: Global,
    bench: &mut Bench<L>,
    line: &[u8],
    text: &[u8],
) -> Result<bool, Fail> {
    let answer = answer_of(alloc, bench, line)?;
    Ok(answer.bytes() == text)
}
