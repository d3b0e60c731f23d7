ghost use Rattle.std.specs.Prelude.{◌≡◌};
ghost use Rattle.ic_name.specs.Kinds.{arity as arity_of};

/// The three symbols of the interaction combinators (Lafont 1997): gamma, delta and epsilon.
#[derive(Clone, Copy, Debug, PartialEq, Eq, PartialOrd, Ord, Hash)]
pub enum Kind {
    Gamma,
    Delta,
    Eps,
}

impl Kind {
    /// The number of auxiliary ports: 2 for gamma and delta, 0 for epsilon. The principal port comes on top.
    pub fn arity(self) -> u8
        ensures { result ≡ arity_of self }
    {
        match self {
            Kind::Gamma | Kind::Delta => 2,
            Kind::Eps => 0,
        }
    }
}
