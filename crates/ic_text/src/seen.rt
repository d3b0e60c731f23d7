/// A name that has occurred: its bytes, the place of the first of them in the text, and how often.
#[derive(Clone, Copy)]
pub struct Seen<'a> {
    pub text: &'a [u8],
    pub first: usize,
    pub times: u32,
}

/// An occurrence of a name: the name's number, and how often it had occurred before.
#[derive(Clone, Copy)]
pub struct Occurrence {
    pub number: usize,
    pub before: u32,
}
