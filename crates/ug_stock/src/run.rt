ghost use Rattle.std.specs.Prelude.{◌≡◌, ◌≤◌, ◌*◌, ◌^◌, unsigned_abs};
ghost use Rattle.ug_rows.specs.Sums.{box_floor};
ghost use Rattle.ug_problem.specs.Instances.{root_of};
ghost use Rattle.ug_nodes.specs.Changes.{AreChangesOf, area_by};
ghost use Rattle.ug_stock.specs.Runs.{KnowsFloor};

use std::alloc::Global;
use ug_nodes::{Changes, floor_of_changes};
use ug_problem::Shared;
use ug_rules::Settings;

/// What no call changes of a book: what is solved, under which number and settings.
#[derive(Drop)]
pub struct Run {
    pub alloc: Global,
    pub problem: Shared,
    /// The floor of the problem's root box.
    pub floor: i128,
    /// The number of the run, which each of its tickets has.
    pub number: u64,
    pub settings: Settings,
}

impl Run {
    /// The floor of the box that these changes make of the root's.
    pub fn floor_of(&self, changes: &Changes) -> i128
        requires floor { KnowsFloor self.now }
        requires changes { AreChangesOf (root_of self.now.problem) changes.now }
        ensures value { result ≡ box_floor self.now.problem.objective
            (area_by (root_of self.now.problem) changes.now) }
        ensures small { unsigned_abs result ≤ 9 * 10 ^ 37 }
    {
        let problem = self.problem.problem();
        floor_of_changes(problem.objective(), problem.root(), self.floor, changes)
    }
}
