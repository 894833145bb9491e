ghost use Rattle.std.specs.Prelude.{◌≡◌};
ghost use Rattle.clause_learning.specs.Literals.{complement};

/// A numbered atom or its denial.
#[derive(Clone, Copy, Drop)]
pub struct Literal {
    pub atom: usize,
    pub positive: bool,
}

impl Literal {
    /// The literal of the same atom with the other sign.
    pub fn opposite(self) -> Literal
        ensures { result ≡ complement self }
    {
        Literal {
            atom: self.atom,
            positive: !self.positive,
        }
    }
}
