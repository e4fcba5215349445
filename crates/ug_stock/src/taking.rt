ghost use Rattle.std.specs.Prelude.{◌≡◌, ◌<◌, length, IfOk, OnOk, OnErr};
ghost use Rattle.ug_problem.specs.Instances.{root_of};
ghost use Rattle.ug_ranks.specs.States.{state_at};
ghost use Rattle.ug_rules.specs.State.{BookState};
ghost use Rattle.ug_rules.specs.Hearing.{handed_at};
ghost use Rattle.ug_stock.specs.Hands.{CanBeTaken, IsHandTaken, IsLineOfNext, IsNothingTaken, IsWorking};
ghost use Rattle.ug_stock.specs.Frontiers.{HasRoom, with_frontier};

use crate::frontier::Frontier;
use crate::run::Run;
use std::alloc::{AllocError, Global};
use ug_nodes::{Changes, Line, Name, Node, area_of};
use ug_pool::{OpenNodes, Pool};
use ug_ranks::{Ranks, State};

impl Frontier {
    /// Takes a hand of a rank that works: a node with these changes is in the pool, with its floor,
    /// and its box is noted. The pool gets room for one node more than can be out: one of each
    /// rank, and one that is raced; so none need be counted. After an error nothing has changed.
    pub fn take_hand(&mut self, run: &Run, rank: u32, changes: Changes) -> Result<(), AllocError>
        requires hand { CanBeTaken run.now rank changes self.old.ranks }
        requires room { HasRoom self.old }
        ensures ok { OnOk result ((b : BookState) → b.problem ≡ run.now.problem
            → with_frontier b self.new
            ≡ handed_at (state_at self.old.ranks rank) rank changes (with_frontier b self.old)) }
        ensures err { OnErr result ((b : BookState)
            → with_frontier b self.new ≡ with_frontier b self.old) }
        ensures room { HasRoom self.new }
    {
        self.pool.reserve(self.ranks.as_slice().len() + 2)?;
        take(run, &mut self.ranks, &mut self.pool, rank, changes)
    }
}

// The same, in a place of the pool that is spare. All memory is taken before anything changes.
fn take(
    run: &Run,
    ranks: &mut Ranks,
    pool: &mut Pool,
    rank: u32,
    changes: Changes,
) -> Result<(), AllocError>
    requires hand { CanBeTaken run.now rank changes ranks.old }
    requires room { 0 < pool.old.spare }
    ensures ok { OnOk result (IsHandTaken run.now.problem.objective (root_of run.now.problem)
        rank changes ranks.old pool.old ranks.new pool.new) }
    ensures err { OnErr result (IsNothingTaken ranks.old pool.old ranks.new pool.new) }
{
    let line = child_line(run.alloc, ranks, rank)?;
    let floor = run.floor_of(&changes);
    let Ok(area) = area_of(run.alloc, run.problem.problem().root(), &changes) else {
        return Err(AllocError);
    };
    let taken = ranks.take(rank, &area);
    drop(area);
    taken?;
    pool.put(Node { line, changes }, floor);
    Ok(())
}

// The line of the next hand.
fn child_line(alloc: Global, ranks: &Ranks, rank: u32) -> Result<Line, AllocError>
    requires there { rank < length ranks.now }
    requires working { IsWorking (state_at ranks.now rank) }
    ensures { IfOk result (λ line. IsLineOfNext (state_at ranks.now rank) line) }
{
    match ranks.state(rank) {
        State::Active(work) => {
            let hand = work.taken.len() as u64;
            let ticket = work.ticket;
            work.node.line.child(alloc, Name { ticket, hand })
        }
        State::Absent | State::Idle | State::Racing(_) | State::Dead(_) => Err(AllocError),
    }
}
