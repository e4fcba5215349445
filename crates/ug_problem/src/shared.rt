ghost use Rattle.std.specs.Prelude.{◌≡◌, IfOk};

use crate::problem::Problem;
use std::alloc::{AllocError, Global};
use std::marker::Model;
use std::sync::Arc;

// The place of a problem.
#[derive(Drop)]
enum Holder {
    // Here.
    Own(Problem),
    // In one place in memory, with all that hold it.
    Counted(Arc<Problem>),
}

/// A problem that many may hold: one of its own, or a counted one.
#[derive(Drop)]
pub struct Shared {
    holder: Holder,
}

impl Model for Shared {
    ghost use Rattle.ug_problem.specs.Instances.{Instance};
    ghost use Rattle.ug_problem.specs.Shared.{held_by};

    ghost Value = { Instance };

    ghost view = { λ shared. held_by shared.holder };
}

impl Shared {
    /// A problem of its own. It takes no memory.
    pub fn own(problem: Problem) -> Shared
        ensures { result ≡ problem }
    {
        Shared {
            holder: Holder::Own(problem),
        }
    }

    /// The problem in one place in memory, so that others may hold it without a copy. After an
    /// error it is dropped.
    pub fn into_counted(self, alloc: Global) -> Result<Shared, AllocError>
        ensures { IfOk result (λ shared. shared ≡ self) }
    {
        let place = match self.holder {
            Holder::Own(problem) => Arc::new(alloc, problem)?,
            Holder::Counted(place) => place,
        };
        Ok(Shared {
            holder: Holder::Counted(place),
        })
    }

    /// The problem. It takes no memory.
    pub fn problem(&self) -> &Problem
        ensures value { result.now ≡ self.now }
    {
        match &self.holder {
            Holder::Own(problem) => problem,
            Holder::Counted(place) => place,
        }
    }

    /// A second holder. It shares a counted problem, and has a copy of one of its own.
    pub fn share(&self) -> Result<Shared, AllocError>
        ensures { IfOk result (λ shared. shared ≡ self.now) }
    {
        let holder = match &self.holder {
            Holder::Own(problem) => Holder::Own(problem.copy()?),
            Holder::Counted(place) => Holder::Counted(Arc::try_clone(place)?),
        };
        Ok(Shared { holder })
    }
}
