ghost use Rattle.std.specs.Prelude.{◌≡◌};
ghost use Rattle.ug_problem.specs.Limits.{IsProblem};

use std::marker::Model;
use ug_problem::{Problem, Shared};

/// A problem, and the formulation of it that is searched: its own rows, or more that follow from
/// them.
#[derive(Drop)]
pub struct Formulation {
    problem: Shared,
    stronger: Option<Problem>,
}

impl Model for Formulation {
    ghost use Rattle.ug_base.specs.Formulations.{FormulationState, searched_of};

    ghost Value = { FormulationState };

    ghost view = { λ f. record {
      problem = f.problem;
      searched = searched_of f.problem f.stronger;
    } };
}

impl Formulation {
    /// A problem with its own rows alone. It takes no memory.
    pub fn own(problem: Shared) -> Formulation
        ensures { result ≡ record { problem = problem; searched = problem } }
    {
        Formulation {
            problem,
            stronger: None,
        }
    }

    /// The problem.
    pub fn problem(&self) -> &Problem
        ensures value { result.now ≡ self.now.problem }
        ensures problem { IsProblem self.now.problem }
    {
        let problem = self.problem.problem();
        // The problem's type keeps that it is one.
        let _columns = problem.columns();
        problem
    }

    /// Returns the formulation that is searched.
    pub fn searched(&self) -> &Problem
        ensures value { result.now ≡ self.now.searched }
        ensures problem { IsProblem self.now.searched }
    {
        let searched = match &self.stronger {
            Some(stronger) => stronger,
            None => self.problem.problem(),
        };
        let _columns = searched.columns();
        searched
    }

    /// Another formulation is searched.
    pub fn take(&mut self, stronger: Problem)
        ensures { self.new ≡ record self.old { searched = stronger } }
    {
        self.stronger = Some(stronger);
    }
}
