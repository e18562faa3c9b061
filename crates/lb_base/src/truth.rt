// The three values of a condition, and how conditions are combined.
ghost use Rattle.std.specs.Prelude.{◌≡◌};
ghost use Rattle.lb_base.specs.Truths.{and_of, is_false, is_true, not_of, or_of};

/// The truth of a condition in three-valued logic.
#[derive(Clone, Copy, Debug, PartialEq, Eq)]
pub enum Truth {
    False,
    /// What a comparison with null gives.
    Unknown,
    True,
}

impl Truth {
    /// AND: false where one is false, true where both are true, else unknown.
    pub fn and(self, other: Truth) -> Truth
        ensures { result ≡ and_of self other }
    {
        match (self, other) {
            (Truth::False, _) | (_, Truth::False) => Truth::False,
            (Truth::True, Truth::True) => Truth::True,
            _ => Truth::Unknown,
        }
    }

    /// OR: true where one is true, false where both are false, else unknown.
    pub fn or(self, other: Truth) -> Truth
        ensures { result ≡ or_of self other }
    {
        match (self, other) {
            (Truth::True, _) | (_, Truth::True) => Truth::True,
            (Truth::False, Truth::False) => Truth::False,
            _ => Truth::Unknown,
        }
    }

    /// NOT, which leaves unknown as it is.
    pub fn not(self) -> Truth
        ensures { result ≡ not_of self }
    {
        match self {
            Truth::False => Truth::True,
            Truth::Unknown => Truth::Unknown,
            Truth::True => Truth::False,
        }
    }

    /// Whether it is true, which a row has to be to be kept.
    pub fn is_true(self) -> bool
        ensures { result ≡ is_true self }
    {
        self == Truth::True
    }

    /// Whether it is false, at which AND stops.
    pub fn is_false(self) -> bool
        ensures { result ≡ is_false self }
    {
        self == Truth::False
    }
}
