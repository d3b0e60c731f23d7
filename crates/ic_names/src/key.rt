ghost use Rattle.std.specs.Prelude.{◌≡◌, ◌-◌, ◌*◌, ◌^◌, ◌<◌, ◌≤◌};
ghost use Rattle.ic_name.specs.Names.{Name, depth as depth_of, start_name, child_name};
ghost use Rattle.ic_names.specs.Keys.{IsProper, key_of};

/// What one generation more adds to a key.
const GENERATION: u64 = 1 << 50;

/// What a start number is multiplied by in a key.
const START: u64 = 1 << 34;

/// The number of digits in a key.
const FRONT: u64 = 17;

/// A key of names: the depth, the start number and the first 17 digits in one number. Names of different keys are in the
/// order of their keys.
#[derive(Clone, Copy)]
pub struct NameKey(u64);

impl NameKey {
    /// The key of a start agent's name.
    pub fn start(number: u16) -> NameKey
        ensures { result.0 ≡ key_of (start_name number) }
    {
        NameKey(u64::from(number) * START)
    }

    /// The number.
    pub fn number(self) -> u64
        ensures { result ≡ self.0 }
    {
        self.0
    }

    /// The depth of the names of this key, in constant time.
    pub fn depth(self) -> u64
        ensures { (n : Name) → IsProper n → self.0 ≡ key_of n → result ≡ depth_of n }
    {
        self.0 / GENERATION
    }

    /// The start number of the names of this key, in constant time.
    pub fn start_number(self) -> u16
        ensures { (n : Name) → IsProper n → self.0 ≡ key_of n → result ≡ n.start }
    {
        (self.0 % GENERATION / START) as u16
    }

    /// The key of the child with this digit, in constant time.
    pub fn child(self, digit: u8) -> NameKey
        requires small { digit < 4 }
        requires key { (n : Name) × IsProper n × (self.0 ≡ key_of n) × (depth_of n < 16383) }
        ensures { (n : Name) → IsProper n → self.0 ≡ key_of n → result.0 ≡ key_of (child_name n digit) }
    {
        NameKey(self.0 + GENERATION + digit_behind(self.depth(), digit))
    }
}

/// What a digit after so many others adds to a key: nothing if the key has no place for it.
fn digit_behind(depth: u64, digit: u8) -> u64
    requires { digit < 4 }
    ensures inside { depth < 17 → result ≡ digit * 4 ^ (16 - depth) }
    ensures past { 17 ≤ depth → result ≡ 0 }
    ensures small { result < 2 ^ 34 }
{
    if depth < FRONT {
        u64::from(digit) << (2 * (FRONT - 1 - depth))
    } else {
        0
    }
}
