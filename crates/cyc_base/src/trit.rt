ghost use Rattle.std.specs.Prelude.{◌≡◌, ◌↔◌, IsTrue};
ghost use Rattle.cyc_base.specs.Values.{bit, known_bit, Below};

/// The three values of ternary simulation: 0, 1 and X, which is unknown.
#[derive(Clone, Copy, PartialEq, Eq)]
pub enum Trit {
    Zero,
    One,
    X,
}

impl Trit {
    /// A Boolean value as one of the three.
    pub fn of(b: bool) -> Trit
        ensures { result ≡ bit b }
    {
        if b { Trit::One } else { Trit::Zero }
    }

    /// The Boolean value, or `None` exactly for X.
    pub fn known(self) -> Option<bool>
        ensures { result ≡ known_bit self }
    {
        match self {
            Trit::Zero => Some(false),
            Trit::One => Some(true),
            Trit::X => None,
        }
    }

    /// Whether all that it tells `other` tells too: X is below each value, and each value is below itself.
    pub fn is_below(self, other: Trit) -> bool
        ensures { IsTrue result ↔ Below self other }
    {
        match self {
            Trit::X => true,
            _ => self == other,
        }
    }
}
