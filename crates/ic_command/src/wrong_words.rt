use crate::line_form::{is_plain, without_return};
use crate::topic::Topic;
use crate::words::next_word;
use ic_name::{AgentName, NameFault};
use std::alloc::{AllocError, Global};
use std::str;

/// The bytes of a word that are shown, at most.
const SHOWN: usize = 40;

/// What is wrong with a line that is no command, in a sentence, if one of its bytes or words shows it. The line is about this.
pub fn wrong_in(alloc: Global, topic: Topic, line: &[u8]) -> Result<Option<String>, AllocError> {
    if topic == Topic::List {
        return Ok(None);
    }
    let body = without_return(line);
    if let Some(offset) = body.iter().position(|byte| !is_plain(*byte)) {
        return Ok(Some(format!(in alloc;
            "column {}: a command is written in ASCII, with blanks and tabs alone between its words",
            offset.saturating_add(1)
        )?));
    }
    let Some((first, behind)) = next_word(body) else {
        return Ok(None);
    };
    match topic {
        Topic::Unknown => said_of(alloc, "no command begins with ", first, "; help lists all"),
        Topic::Alone => match next_word(behind) {
            Some((word, _)) => said_of(
                alloc,
                "nothing may stand after the first word; found ",
                word,
                "",
            ),
            None => Ok(None),
        },
        Topic::Pair => wrong_pair(alloc, behind),
        Topic::Number => wrong_number(alloc, behind),
        Topic::Mark | Topic::Place | Topic::List | Topic::TooLong => Ok(None),
    }
}

/// What is wrong with the number that should stand there.
fn wrong_number(alloc: Global, behind: &[u8]) -> Result<Option<String>, AllocError> {
    let Some((number, rest)) = next_word(behind) else {
        return Ok(None);
    };
    match next_word(rest) {
        Some((word, _)) if number.iter().all(|byte| byte.is_ascii_digit()) => said_of(
            alloc,
            "nothing may stand after the number; found ",
            word,
            "",
        ),
        _ => said_of(
            alloc,
            "",
            number,
            " isn't one number from 0 to 1048576 without leading zeros",
        ),
    }
}

/// What is wrong with the two names that should stand there.
fn wrong_pair(alloc: Global, behind: &[u8]) -> Result<Option<String>, AllocError> {
    let Some((left, rest)) = next_word(behind) else {
        return Ok(None);
    };
    if let Some(why) = wrong_name(alloc, left) {
        return said_of(alloc, "", left, why);
    }
    let Some((right, rest)) = next_word(rest) else {
        return Ok(None);
    };
    if let Some(why) = wrong_name(alloc, right) {
        return said_of(alloc, "", right, why);
    }
    if let Some((word, _)) = next_word(rest) {
        return said_of(
            alloc,
            "nothing may stand after the two names; found ",
            word,
            "",
        );
    }
    if left == right {
        return said_of(
            alloc,
            "the two agents must be different; both are ",
            left,
            "",
        );
    }
    Ok(None)
}

/// Why the word names no agent; `None` if it names one.
fn wrong_name(alloc: Global, word: &[u8]) -> Option<&'static str> {
    match AgentName::read(alloc, word) {
        Err(NameFault::BadName(offset)) => Some(why_no_name(word, offset)),
        Err(NameFault::Deep) => Some(" is no agent: a name has at most 16383 digits after dots"),
        Ok(_) | Err(NameFault::Memory) => None,
    }
}

/// Why the word names no agent, of which this is the first byte that is wrong.
fn why_no_name(word: &[u8], offset: usize) -> &'static str {
    if offset == 0 {
        return " is no agent: a name begins with a number, as in 0 and 0.2";
    }
    let front = &word[..word.len().min(offset)];
    if front.ends_with(b".") {
        return " is no agent: after a dot comes a digit from 0 to 3";
    }
    if front == b"0".as_slice() {
        return " is no agent: after 0 comes a dot or nothing";
    }
    if front.contains(&b'.') {
        return " is no agent: after each dot comes one digit from 0 to 3";
    }
    " is no agent: a name is a number up to 65534, and then .0, .1, .2 or .3 for each generation"
}

/// A sentence about a word, of which a long one is shown in part.
fn said_of(
    alloc: Global,
    front: &'static str,
    word: &[u8],
    behind: &'static str,
) -> Result<Option<String>, AllocError> {
    let dots = if word.len() > SHOWN { ".." } else { "" };
    let Ok(shown) = str::from_utf8(&word[..word.len().min(SHOWN)]) else {
        return Ok(None);
    };
    Ok(Some(format!(in alloc; "{front}{shown}{dots}{behind}")?))
}
