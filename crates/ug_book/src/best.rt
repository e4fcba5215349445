ghost use Rattle.std.specs.Prelude.{◌≡◌, ℤ, List, None, IfSome};
ghost use Rattle.std.specs.Option.{option_copied};
ghost use Rattle.ug_problem.specs.Incumbents.{one_kept};
ghost use Rattle.ug_problem.specs.Better.{Better, IsGap, IsSmallCutoff, best_cutoff};
ghost use Rattle.ug_problem.specs.Feasible.{Feasible};
ghost use Rattle.ug_problem.specs.Offers.{IsAnswer, best_after, best_value};

use std::marker::Model;
use ug_problem::{Offered, Problem};
use ug_rows::Point;

/// The best feasible point that was found, if there is one.
#[derive(Drop)]
pub struct Best {
    point: Option<Point>,
}

impl Model for Best {
    ghost use Rattle.std.specs.Prelude.{List, ℤ, Option};

    ghost Value = { Option (List ℤ) };

    ghost view = { λ best. best.point };
}

impl Best {
    /// No incumbent.
    pub fn none() -> Best
        ensures { result ≡ None }
    {
        Best { point: None }
    }

    /// This incumbent, if there is one.
    pub fn new(point: Option<Point>) -> Best
        ensures { result ≡ point }
    {
        Best { point }
    }

    /// The incumbent, if there is one.
    pub fn point(&self) -> Option<&Point>
        ensures { option_copied result ≡ self.now }
    {
        self.point.as_ref()
    }

    /// Takes the point for the incumbent, if it is better. After any other answer nothing has
    /// changed, and the point is dropped. Values alone count, whatever gap a cutoff is taken with.
    #[tactic(auto, using(ug_problem::proofs::Incumbents::offer_falls))]
    pub fn offer(&mut self, problem: &Problem, point: Point) -> Offered
        requires { IfSome self.old (Feasible problem.now) }
        ensures answer { IsAnswer problem.now self.old point result }
        ensures best { self.new ≡ best_after result point self.old }
        ensures feasible { IfSome self.new (Feasible problem.now) }
        ensures falls { (gap : ℤ) (x : List ℤ) → IsGap gap
            → Better problem.now gap (one_kept self.new) x
            → Better problem.now gap (one_kept self.old) x }
    {
        let offered = self.judge(problem, &point);
        if offered == Offered::Taken {
            self.point = Some(point);
        }
        offered
    }

    // Compares a point with the incumbent.
    fn judge(&self, problem: &Problem, point: &Point) -> Offered
        requires { IfSome self.now (Feasible problem.now) }
        ensures { IsAnswer problem.now self.now point.now result }
    {
        if let Some(broken) = problem.first_broken(point) {
            return Offered::Broken(broken);
        }
        let given = problem.value(point);
        match self.value(problem) {
            Some(kept) if kept <= given => Offered::NotBetter { kept, given },
            _ => Offered::Taken,
        }
    }

    // The incumbent's value, if there is an incumbent.
    fn value(&self, problem: &Problem) -> Option<i128>
        requires { IfSome self.now (Feasible problem.now) }
        ensures { result ≡ best_value problem.now self.now }
    {
        match &self.point {
            Some(point) => Some(problem.value(point)),
            None => None,
        }
    }

    /// The incumbent's cutoff, if there is an incumbent: points of a value below are of use.
    pub fn cutoff(&self, problem: &Problem, gap: i128) -> Option<i128>
        requires incumbent { IfSome self.now (Feasible problem.now) }
        requires gap { IsGap gap }
        ensures value { result ≡ best_cutoff problem.now gap self.now }
        ensures small { IsSmallCutoff result }
    {
        match &self.point {
            Some(point) => Some(problem.cutoff(gap, point)),
            None => None,
        }
    }
}
