use crate::numbers::Numbers;
use std::alloc::{AllocError, Global};
use std::test::Fail;

/// The names but for the one at this place.
fn without(alloc: Global, names: &[u8], place: usize) -> Result<Vec<u8>, AllocError> {
    let mut others = Vec::new(alloc);
    for (k, name) in names.iter().enumerate() {
        if k != place {
            others.push(*name)?;
        }
    }
    Ok(others)
}

/// Eight names, twice each, in some order.
fn shuffled(alloc: Global, numbers: &mut Numbers) -> Result<Vec<u8>, Fail> {
    let mut left = Vec::from_slice(alloc, b"abcdefghabcdefgh")?;
    let mut names = Vec::new(alloc);
    for _ in 0..left.len() {
        let place = numbers.below(left.len());
        names.push(*left.get(place).ok_or("a name")?)?;
        left = without(alloc, &left, place)?;
    }
    Ok(names)
}

/// A term, with the last of the names.
fn push_term(numbers: &mut Numbers, names: &mut Vec<u8>, text: &mut Vec<u8>) -> Result<(), Fail> {
    let symbol = match numbers.below(5) {
        0 => b'E',
        1 | 2 => b'D',
        _ => b'G',
    };
    text.push(symbol)?;
    if symbol == b'E' {
        return Ok(());
    }
    let first = names.pop().ok_or("a name")?;
    let second = names.pop().ok_or("a name")?;
    text.extend_from_slice(&[b'(', first, b',', second, b')'])?;
    Ok(())
}

/// A net text of agents whose principal ports meet.
pub fn some_net(alloc: Global, numbers: &mut Numbers) -> Result<Vec<u8>, Fail> {
    let mut names = shuffled(alloc, numbers)?;
    let mut text = Vec::new(alloc);
    for _ in 0..4 {
        push_term(numbers, &mut names, &mut text)?;
        text.extend_from_slice(b" = ")?;
        push_term(numbers, &mut names, &mut text)?;
        text.extend_from_slice(b";\n")?;
    }
    Ok(text)
}
