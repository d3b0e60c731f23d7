// Net texts in no order to be seen.
use std::alloc::Global;

/// Numbers in no order to be seen, by a linear congruence.
#[derive(Drop)]
pub struct Numbers {
    last: u32,
}

impl Numbers {
    pub fn from(seed: u32) -> Numbers {
        Numbers { last: seed }
    }

    /// A number below the bound, and 0 where that is 0.
    fn below(&mut self, bound: usize) -> usize {
        self.last = self
            .last
            .wrapping_mul(1_664_525)
            .wrapping_add(1_013_904_223);
        let high = (self.last >> 16) as usize;
        high.checked_rem(bound).unwrap_or(0)
    }
}

/// Names that stand twice each, some of which are used up.
fn shuffled(alloc: Global, numbers: &mut Numbers) -> Option<Vec<u8>> {
    let mut names = Vec::new(alloc);
    names.extend_from_slice(b"abcdefghijklabcdefghijkl").ok()?;
    for place in 0..names.len() {
        let other = numbers.below(names.len());
        let here = names.get(place).copied()?;
        let there = names.get(other).copied()?;
        *names.get_mut(place)? = there;
        *names.get_mut(other)? = here;
    }
    Some(names)
}

/// A term, with the last of the names.
fn push_term(numbers: &mut Numbers, names: &mut Vec<u8>, text: &mut Vec<u8>) -> Option<()> {
    let symbol = match numbers.below(5) {
        0 | 1 => b'E',
        2 => b'D',
        _ => b'G',
    };
    text.push(symbol).ok()?;
    if symbol == b'E' {
        return Some(());
    }
    let first = names.pop()?;
    let second = names.pop()?;
    text.extend_from_slice(&[b'(', first, b',', second, b')'])
        .ok()?;
    Some(())
}

/// A net text of six active pairs.
pub fn some_net(alloc: Global, numbers: &mut Numbers) -> Option<Vec<u8>> {
    let mut names = shuffled(alloc, numbers)?;
    let mut text = Vec::new(alloc);
    for _ in 0..6 {
        push_term(numbers, &mut names, &mut text)?;
        text.extend_from_slice(b" = ").ok()?;
        push_term(numbers, &mut names, &mut text)?;
        text.extend_from_slice(b";\n").ok()?;
    }
    Some(text)
}
