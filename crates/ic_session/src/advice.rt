ghost use Rattle.std.specs.Prelude.{◌≤◌, IfSome};

use ic_command::Topic;

/// What was wrong with a request that was refused by this number, and what would be right; `None` for a number that no request is
/// refused by.
pub(crate) fn advice(topic: Topic, number: u8) -> Option<&'static str> {
    match number {
        21 if topic == Topic::Number => Some("no pair is active, so there is nothing to fire"),
        21 => Some(
            "one of the agents isn't there, or no wire joins their principal ports; active lists the pairs that can fire",
        ),
        22 => Some(
            "the names of the children would have more than 16383 digits; this pair can't be fired",
        ),
        23 => Some(
            "there would be more than 262144 agents, counting those that standing events consumed; undo events first",
        ),
        24 => Some("the history holds at most 1048576 calls; begin a new session"),
        25 => Some("memory ran out; only what the answer tells was done"),
        26 => Some(
            "there is no such port or free name; agents lists the agents, and net prints the free names",
        ),
        31 => Some("no event of these agents stands; journal lists those that do"),
        32 => Some(
            "the event that the answer names depends on it; undo that one first, or unwind this one with all that depends on it",
        ),
        40 => Some(expected(topic)),
        41 => Some("no mark has this name; marks lists all marks"),
        42 => Some("there are 256 marks already; use the name of one of them"),
        51 => Some(
            "the event that the answer names can't stand together with the standing and the listed events",
        ),
        _ => None,
    }
}

/// What is expected of a line about this.
fn expected(topic: Topic) -> &'static str {
    match topic {
        Topic::Alone => "nothing may stand after the first word",
        Topic::Pair =>
            "expected after the first word: the names of two different agents, such as 0 and 0.2",
        Topic::Number =>
            "expected after reduce: one number from 0 to 1048576, without leading zeros",
        Topic::Mark =>
            "expected after the first word: a name of at most 32 bytes: a small letter or _, then small letters, digits and _",
        Topic::Place => "expected after wire: an agent and a port, such as 0 2, or a free name",
        Topic::List =>
            "expected after absorb: a number from 0 to 131072, and then as many lines, each with the names of two agents",
        Topic::Unknown => "no such command; help lists all, in small letters",
        Topic::TooLong => "a line has at most 131072 bytes",
    }
}

/// The number of a refusal; `None` if the answer is none.
pub(crate) fn number_of(answer: &[u8]) -> Option<u8> {
    let rest = answer.strip_prefix(b"refused ")?;
    let tens = digit_of(*rest.first()?)?;
    let ones = digit_of(*rest.get(1)?)?;
    Some(10 * tens + ones)
}

/// The value of a decimal digit.
fn digit_of(byte: u8) -> Option<u8>
    ensures { IfSome result (λ digit. digit ≤ 9) }
{
    match byte {
        b'0'..=b'9' => Some(byte - b'0'),
        _ => None,
    }
}
