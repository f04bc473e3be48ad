//! Truth with a third value for what a comparison with Null says.

ghost use Rattle.std.specs.Prelude.{◌≡◌};
ghost use Rattle.tt_value.specs.Truth.{truth_of, negated, both_of, either_of};

/// What a condition is of a row: a comparison with Null is `Unknown`.
#[derive(Clone, Copy, Debug, PartialEq, Eq)]
pub enum Truth {
    Yes,
    No,
    Unknown,
}

impl Truth {
    pub fn of(holds: bool) -> Truth
        ensures { result ≡ truth_of holds }
    {
        if holds { Truth::Yes } else { Truth::No }
    }

    /// The truth of `not`: what is unknown stays so.
    pub fn negated(self) -> Truth
        ensures { result ≡ negated self }
    {
        match self {
            Truth::Yes => Truth::No,
            Truth::No => Truth::Yes,
            Truth::Unknown => Truth::Unknown,
        }
    }

    /// The truth of `and`: the lesser of the two, where `Unknown` lies between `No` and `Yes`.
    pub fn and(self, other: Truth) -> Truth
        ensures { result ≡ both_of self other }
    {
        match (self, other) {
            (Truth::No, _) | (_, Truth::No) => Truth::No,
            (Truth::Yes, Truth::Yes) => Truth::Yes,
            _ => Truth::Unknown,
        }
    }

    /// The truth of `or`: the greater of the two, where `Unknown` lies between `No` and `Yes`.
    pub fn or(self, other: Truth) -> Truth
        ensures { result ≡ either_of self other }
    {
        match (self, other) {
            (Truth::Yes, _) | (_, Truth::Yes) => Truth::Yes,
            (Truth::No, Truth::No) => Truth::No,
            _ => Truth::Unknown,
        }
    }
}
