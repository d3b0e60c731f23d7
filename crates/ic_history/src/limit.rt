ghost use Rattle.std.specs.Prelude.{◌≡◌};
ghost use Rattle.ic_history.specs.Limits.{reply_of};

use ic_name::Reply;

/// A limit that firing an active pair meets.
#[derive(Clone, Copy, Debug, PartialEq, Eq)]
pub enum Limit {
    /// The rule makes children, and the lead's name has as many digits as a name may have.
    Deep,
    /// With the children there would be more agents than there may be.
    Full,
}

impl Limit {
    /// The reply in the history.
    pub fn reply(self) -> Reply
        ensures { result ≡ reply_of self }
    {
        match self {
            Limit::Deep => Reply::Deep,
            Limit::Full => Reply::Full,
        }
    }
}
