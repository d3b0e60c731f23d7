ghost use Rattle.std.specs.Prelude.{◌≡◌, ◌*◌, ◌<◌, ◌≤◌, ◌++◌, ℕ, length, drop, All};
ghost use Rattle.ic_name.specs.Names.{Name, depth as depth_of, start_name, child_name};
ghost use Rattle.ic_name.specs.NameTexts.{digits_text};
ghost use Rattle.ic_names.specs.Keys.{IsProper};
ghost use Rattle.ic_names.specs.Blocks.{anchor_depth, number_of, block_of, last_of};
ghost use Rattle.ic_names.specs.DigitTexts.{HasDots};

/// The number of digits in a block, at most: so many fit in 64 bits. At each multiple of it there is an anchor.
pub const BLOCK: u64 = 32;

/// A block of digits: those of a name after its anchor, in one number. The anchor is the nearest ancestor at a depth that is
/// a multiple of 32; that of a start agent's name is the name itself. Names of one depth and one anchor are in the order of
/// their blocks.
#[derive(Clone, Copy)]
pub struct Block(u64);

impl Block {
    /// The block of a start agent's name, in which there are no digits.
    pub fn start() -> Block
        ensures { (k : ℕ) → result.0 ≡ block_of (start_name k) }
    {
        Block(0)
    }

    /// The number.
    pub fn number(self) -> u64
        ensures { result ≡ self.0 }
    {
        self.0
    }

    /// The block of the child with this digit, for a name of this depth and block.
    pub fn child(self, depth: u64, digit: u8) -> Block
        requires small { digit < 4 }
        requires block { (n : Name) × IsProper n × (depth ≡ depth_of n) × (self.0 ≡ block_of n) }
        ensures { (n : Name) → IsProper n → depth ≡ depth_of n → self.0 ≡ block_of n → result.0 ≡ block_of (child_name n digit) }
    {
        if depth % BLOCK == 0 {
            return Block(u64::from(digit));
        }
        Block(4 * self.0 + u64::from(digit))
    }

    /// The last digit of a name of this block, if it has digits: that of a child among the children of its parent.
    pub fn last_digit(self) -> u8
        ensures number { result ≡ last_of self.0 }
        ensures child { (n : Name) (d : ℕ) → d < 4 → self.0 ≡ block_of (child_name n d) → result ≡ d }
    {
        (self.0 % 4) as u8
    }

    /// The block of these digits.
    #[tactic(auto, using(crate::proofs::Blocks::none_read, crate::proofs::Blocks::one_read, crate::proofs::Blocks::read_below))]
    pub fn of_digits(digits: &[u8]) -> Block
        requires length { length digits.now ≤ 32 }
        requires small { All (λ d. d < 4) digits.now }
        ensures { result.0 ≡ number_of digits.now }
    {
        let mut number = 0;
        for digit in digits {
            number = 4 * number + u64::from(*digit);
        }
        Block(number)
    }

    /// Puts the digits after the anchor of a name of this depth and block at their places among the name's digits, and gives
    /// the depth of the anchor.
    pub fn put_digits(self, digits: &mut [u8], depth: usize) -> usize
        requires some { 0 < depth }
        requires inside { depth ≤ length digits.old }
        ensures anchor { (n : Name) → depth ≡ depth_of n → result ≡ anchor_depth n }
        ensures put { (n : Name) → IsProper n → depth ≡ depth_of n → self.0 ≡ block_of n → drop result digits.new ≡ drop result n.digits ++ drop depth digits.old }
        ensures same_length { length digits.new ≡ length digits.old }
    {
        let first = (depth - 1) / BLOCK as usize * BLOCK as usize;
        let mut number = self.0;
        let mut at = depth;
        while at > first {
            at -= 1;
            digits[at] = (number % 4) as u8;
            number /= 4;
        }
        first
    }

    /// Writes the digits after the anchor of a name of this depth and block into a text with a dot before each digit of the
    /// name, and gives the depth of the anchor.
    pub fn write_digits(self, text: &mut [u8], depth: usize) -> usize
        requires some { 0 < depth }
        requires inside { 2 * depth ≤ length text.old }
        requires dots { HasDots text.old }
        ensures anchor { (n : Name) → depth ≡ depth_of n → result ≡ anchor_depth n }
        ensures put { (n : Name) → IsProper n → depth ≡ depth_of n → self.0 ≡ block_of n → drop (2 * result) text.new ≡ digits_text (drop result n.digits) ++ drop (2 * depth) text.old }
        ensures same_length { length text.new ≡ length text.old }
        ensures dots { HasDots text.new }
    {
        let first = (depth - 1) / BLOCK as usize * BLOCK as usize;
        let mut number = self.0;
        let mut at = depth;
        while at > first {
            at -= 1;
            text[2 * at + 1] = b'0' + (number % 4) as u8;
            number /= 4;
        }
        first
    }
}
