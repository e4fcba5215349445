ghost use Rattle.std.specs.Prelude.{◌≡◌, IfOk};
ghost use Rattle.ug_rows.specs.Boxes.{IsBelow};
ghost use Rattle.ug_problem.specs.Instances.{root_of};
ghost use Rattle.ug_nodes.specs.Changes.{AreChangesOf, area_by};
ghost use Rattle.ug_desk.specs.Takes.{task_of};

use std::alloc::{AllocError, Global};
use std::marker::Model;
use ug_base::Task;
use ug_book::Book;
use ug_branch::Params;
use ug_nodes::{AreaError, Changes, Node, Ticket, area_of};
use ug_problem::{Problem, Shared};
use ug_rows::IntBox;

/// The work of a rank, of which a task is still to be made: that takes a look at each row, for
/// which no lock is held.
#[derive(Drop)]
pub struct Parcel {
    alloc: Global,
    problem: Shared,
    ticket: Ticket,
    params: Params,
    changes: Changes,
    cutoff: Option<i128>,
    gap: i128,
}

impl Model for Parcel {
    ghost use Rattle.ug_base.specs.Tasks.{TaskState};
    ghost use Rattle.ug_desk.specs.Parcels.{IsParcel, task_in};

    ghost Value = { TaskState };

    ghost view = { task_in };

    ghost invariant = { IsParcel };
}

impl Parcel {
    /// The work that a rank has, by a copy of the node's changes.
    pub fn of(
        alloc: Global,
        book: &Book,
        ticket: Ticket,
        params: Params,
        node: &Node,
    ) -> Result<Parcel, AllocError>
        requires { AreChangesOf (root_of book.now.problem) node.now.changes }
        ensures { IfOk result (λ parcel. parcel ≡ task_of book.now ticket params node.now) }
    {
        let changes = node.changes.copy()?;
        let cutoff = book.cutoff();
        let gap = book.settings().gap;
        let problem = match book.problem().share() {
            Ok(problem) => problem,
            Err(error) => {
                drop(changes);
                return Err(error);
            }
        };
        Ok(Parcel {
            alloc,
            problem,
            ticket,
            params,
            changes,
            cutoff,
            gap,
        })
    }

    /// The ticket under which it was given.
    pub fn ticket(&self) -> Ticket
        ensures { result ≡ self.now.ticket }
    {
        self.ticket
    }

    /// The task, with its whole box left.
    pub fn open(self) -> Result<Task, AllocError>
        ensures { IfOk result (λ task. task ≡ self) }
    {
        let Parcel {
            alloc,
            problem,
            ticket,
            params,
            changes,
            cutoff,
            gap,
        } = self;
        let whole = whole_box(alloc, problem.problem(), &changes);
        drop(changes);
        match whole {
            Ok(whole) => Task::new(alloc, problem, ticket, params, whole, cutoff, gap),
            Err(error) => {
                drop(problem);
                Err(error)
            }
        }
    }
}

// The box of a node.
fn whole_box(alloc: Global, problem: &Problem, changes: &Changes) -> Result<IntBox, AllocError>
    requires { AreChangesOf (root_of problem.now) changes.now }
    ensures value { IfOk result (λ area. area ≡ area_by (root_of problem.now) changes.now) }
    ensures below { IfOk result (λ area. IsBelow area (root_of problem.now)) }
{
    match area_of(alloc, problem.root(), changes) {
        Ok(area) => Ok(area),
        Err(AreaError::Memory) => Err(AllocError),
        Err(AreaError::Outside { .. }) => unreachable!(),
    }
}
