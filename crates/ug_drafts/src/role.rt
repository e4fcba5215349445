ghost use Rattle.std.specs.Prelude.{◌≡◌};
ghost use Rattle.ug_drafts.specs.Roles.{is_objective, is_ignored};

/// What a row is to the problem.
#[derive(Clone, Copy, PartialEq, Eq)]
pub enum Role {
    /// The objective.
    Objective,
    /// Nothing.
    Ignored,
    /// A row of at most its right-hand side.
    AtMost,
    /// A row of at least its right-hand side.
    AtLeast,
    /// A row of its right-hand side.
    Equal,
}

impl Role {
    /// Whether the row is the objective.
    pub fn is_objective(self) -> bool
        ensures { result ≡ is_objective self }
    {
        match self {
            Role::Objective => true,
            _ => false,
        }
    }

    /// Whether the row is nothing to the problem.
    pub fn is_ignored(self) -> bool
        ensures { result ≡ is_ignored self }
    {
        match self {
            Role::Ignored => true,
            _ => false,
        }
    }
}
