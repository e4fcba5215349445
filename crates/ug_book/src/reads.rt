ghost use Rattle.std.specs.Prelude.{◌≡◌, ◌≢◌, ◌↔◌, ◌<◌, [], length, Contains, IfOk, IfSome, IsNone, IsTrue, MatchOption};
ghost use Rattle.std.specs.Option.{option_copied};
ghost use Rattle.std.specs.List.{AllPairs};
ghost use Rattle.ug_problem.specs.Instances.{root_of};
ghost use Rattle.ug_problem.specs.Incumbents.{one_kept};
ghost use Rattle.ug_problem.specs.Better.{Covered, IsSmallCutoff};
ghost use Rattle.ug_problem.specs.Right.{Right};
ghost use Rattle.ug_nodes.specs.declared.node.Node.{Node};
ghost use Rattle.ug_nodes.specs.Primitive.{IsNamedBefore, IsPrimitive, lent};
ghost use Rattle.ug_ledger.specs.Ledgers.{boxes_of};
ghost use Rattle.ug_ranks.specs.States.{state_at};
ghost use Rattle.ug_rules.specs.State.{cutoff_of_best, held_nodes};
ghost use Rattle.ug_rules.specs.Books.{IsBook, IsSoundBook};
ghost use Rattle.ug_book.specs.Reads.{IsAnswerOf, IsOrderTold};
ghost use Rattle.ug_ranks.specs.Looks.{is_alive};

use crate::book::Book;
use crate::floors::least_floor;
use crate::held::held_nodes;
use crate::working::is_any_working;
use std::alloc::AllocError;
use ug_nodes::{Node, primitive};
use ug_pool::OpenNodes;
use ug_problem::Shared;
use ug_ranks::State;
use ug_rows::Point;
use ug_rules::{Settings, Told};

/// What a book answers that holds no node, the point lent.
#[derive(Clone, Copy)]
pub enum Answered<'a> {
    /// The incumbent.
    Optimal(&'a Point),
    /// There is no incumbent.
    Infeasible,
}

impl Book {
    pub fn problem(&self) -> &Shared
        ensures value { result.now ≡ self.now.problem }
        ensures book { IsBook self.now }
    {
        &self.run.problem
    }

    pub fn run(&self) -> u64
        ensures { result ≡ self.now.run }
    {
        self.run.number
    }

    pub fn settings(&self) -> &Settings
        ensures value { result.now ≡ self.now.settings }
        ensures ranks { length self.now.ranks ≡ self.now.settings.solvers }
    {
        &self.run.settings
    }

    /// The incumbent, if there is one.
    pub fn best(&self) -> Option<&Point>
        ensures { option_copied result ≡ self.now.best }
    {
        self.incumbent.best.point()
    }

    /// The incumbent's cutoff, if there is an incumbent: points of a value below are of use.
    pub fn cutoff(&self) -> Option<i128>
        ensures value { result ≡ cutoff_of_best self.now }
        ensures small { IsSmallCutoff result }
    {
        self.incumbent.cutoff
    }

    /// Returns the number of reports received.
    pub fn heard(&self) -> u64
        ensures { result ≡ self.now.heard }
    {
        self.heard
    }

    /// How many open nodes wait in the pool.
    pub fn open(&self) -> usize
        ensures { result ≡ length self.now.pool }
    {
        self.frontier.pool.len()
    }

    pub fn is_alive(&self, rank: u32) -> bool
        requires { rank < length self.now.ranks }
        ensures { result ≡ is_alive (state_at self.now.ranks rank) }
    {
        self.frontier.ranks.state(rank).is_alive()
    }

    /// The earliest order that waits, which leaves.
    pub fn next_order(&mut self) -> Option<Told>
        ensures told { MatchOption result
            ((self.old.orders ≡ []) × (self.new ≡ self.old))
            (IsOrderTold self.old self.new) }
        ensures sound { IsSoundBook self.old → IsSoundBook self.new }
    {
        self.frontier.orders.next()
    }

    /// The nodes held, lent: the pool in its order, then those of the ranks, rising, then the one
    /// that is raced.
    pub fn held(&self) -> Result<Vec<&Node>, AllocError>
        ensures { IfOk result (λ nodes. lent nodes.items ≡ held_nodes self.now) }
    {
        held_nodes(self.run.alloc, &self.frontier)
    }

    /// The nodes held none of whose ancestors is held, lent, in order of name. They have each
    /// better point of a sound book.
    pub fn primitive(&self) -> Result<Vec<&Node>, AllocError>
        ensures each { IfOk result (λ nodes. (n : Node)
            → Contains (lent nodes.items) n ↔ IsPrimitive (held_nodes self.now) n) }
        ensures rising { IfOk result (λ nodes. AllPairs IsNamedBefore (lent nodes.items)) }
        ensures covered { IsSoundBook self.now → IfOk result (λ nodes.
            Covered self.now.problem self.now.settings.gap (one_kept self.now.best)
            (boxes_of (root_of self.now.problem) (lent nodes.items))) }
    {
        let nodes = self.held()?;
        primitive(self.run.alloc, nodes.as_slice())
    }

    /// The answer, where no node is held. That of a sound book is right.
    pub fn answer(&self) -> Option<Answered<'_>>
        ensures answer { MatchOption result
            (held_nodes self.now ≢ [])
            (IsAnswerOf self.now) }
        ensures right { IsSoundBook self.now → IfSome result (λ a.
            Right self.now.problem self.now.settings.gap (one_kept self.now.best)) }
    {
        if !self.is_empty() {
            return None;
        }
        match self.incumbent.best.point() {
            Some(point) => Some(Answered::Optimal(point)),
            None => Some(Answered::Infeasible),
        }
    }

    /// Returns the dual bound of the nodes held, by the floors of the pool and the last reports of
    /// the ranks, whose truth is not known. Returns `None` if no node is held.
    pub fn bound(&self) -> Option<i128>
        ensures { IsNone result ↔ (held_nodes self.now ≡ []) }
    {
        if self.is_empty() {
            return None;
        }
        Some(least_floor(&self.frontier))
    }

    // Whether no node is held.
    fn is_empty(&self) -> bool
        ensures { IsTrue result ↔ (held_nodes self.now ≡ []) }
    {
        self.frontier.pool.len() == 0
            && self.frontier.raced.is_none()
            && !is_any_working(self.frontier.ranks.as_slice())
    }
}
