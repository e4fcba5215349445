ghost use Rattle.std.specs.Prelude.{◌≡◌, ◌<◌, ◌↔◌, [], All, IfOk, OnOk};
ghost use Rattle.ug_problem.specs.Instances.{root_of};
ghost use Rattle.ug_nodes.specs.Changes.{AreChangesOf};
ghost use Rattle.ug_rules.specs.Books.{HasItsFloor, IsSoundBook};
ghost use Rattle.ug_stock.specs.Runs.{KnowsFloor};
ghost use Rattle.ug_book.specs.Openings.{IsCoveredOpening, IsOpening, opening_book};
ghost use Rattle.ug_book.specs.Starts.{IsFirstFrontier, IsRunOf, IsStartPut, start_entries, with_entries};

use crate::best::Best;
use crate::book::Book;
use crate::incumbent::Incumbent;
use crate::opening::{Boxes, Opening, copied};
use std::alloc::{AllocError, Global};
use ug_nodes::{Changes, Line, Name, Node, Ticket};
use ug_pool::{OpenNodes, Pool};
use ug_ranks::Ranks;
use ug_stock::{Frontier, Queue, Run};

impl Book {
    /// The book with which a run starts: its nodes have the opening's boxes, and the names that
    /// they get under ticket 0 of the run, in order. The cutoff of an incumbent that is there
    /// counts as announced.
    pub fn new(alloc: Global, opening: &Opening) -> Result<Book, AllocError>
        requires { IsOpening opening.now }
        ensures made { IfOk result (λ book. book ≡ opening_book opening.now) }
        ensures sound { IfOk result (λ book. IsSoundBook book ↔ IsCoveredOpening opening.now) }
    {
        let run = run_of(alloc, opening)?;
        let Ok(best) = copied(opening.best.as_ref()) else {
            drop(run);
            return Err(AllocError);
        };
        let incumbent = Incumbent::new(&run, Best::new(best));
        match first_frontier(&run, incumbent.cutoff, &opening.boxes) {
            Ok(frontier) => Ok(Book {
                run,
                incumbent,
                frontier,
                heard: 0,
            }),
            Err(error) => {
                drop(run);
                drop(incumbent);
                Err(error)
            }
        }
    }
}

// What no call changes of a book that is made of the opening.
fn run_of(alloc: Global, opening: &Opening) -> Result<Run, AllocError>
    ensures { IfOk result (IsRunOf opening.now) }
{
    let problem = opening.problem.share()?.into_counted(alloc)?;
    let floor = problem.problem().floor(problem.problem().root());
    Ok(Run {
        alloc,
        problem,
        floor,
        number: opening.run,
        settings: opening.settings,
    })
}

// The starting nodes in the pool, and each rank absent.
fn first_frontier(run: &Run, announced: Option<i128>, boxes: &Boxes) -> Result<Frontier, AllocError>
    requires floor { KnowsFloor run.now }
    requires boxes { All (AreChangesOf (root_of run.now.problem)) boxes.now }
    ensures { IfOk result (IsFirstFrontier run.now announced boxes.now) }
{
    let pool = start_pool(run, boxes)?;
    match Ranks::new(run.alloc, run.settings.solvers) {
        Ok(ranks) => Ok(Frontier {
            pool,
            ranks,
            raced: None,
            last: 0,
            orders: Queue::new(run.alloc),
            announced,
        }),
        Err(error) => {
            drop(pool);
            Err(error)
        }
    }
}

// The pool with the starting nodes.
fn start_pool(run: &Run, boxes: &Boxes) -> Result<Pool, AllocError>
    requires floor { KnowsFloor run.now }
    requires boxes { All (AreChangesOf (root_of run.now.problem)) boxes.now }
    ensures entries { IfOk result (λ pool. pool.entries
        ≡ with_entries (start_entries run.now.problem run.now.number 0 boxes.now) []) }
    ensures floors { IfOk result (λ pool. All (HasItsFloor run.now.problem) pool.entries) }
{
    let mut pool = Pool::new(run.alloc);
    pool.reserve(boxes.len())?;
    let mut hand = 0;
    for changes in boxes.as_slice() {
        let changes = changes.copy()?;
        put_start(run, &mut pool, hand, changes)?;
        hand += 1;
    }
    Ok(pool)
}

// The starting node with these changes, which gets this number, is in the pool.
fn put_start(run: &Run, pool: &mut Pool, hand: u64, changes: Changes) -> Result<(), AllocError>
    requires floor { KnowsFloor run.now }
    requires changes { AreChangesOf (root_of run.now.problem) changes }
    requires room { 0 < pool.old.spare }
    ensures ok { OnOk result
        (IsStartPut run.now.problem run.now.number hand changes pool.old pool.new) }
{
    let ticket = Ticket {
        run: run.number,
        number: 0,
    };
    let line = Line::start(run.alloc, Name { ticket, hand })?;
    let floor = run.floor_of(&changes);
    pool.put(Node { line, changes }, floor);
    Ok(())
}
