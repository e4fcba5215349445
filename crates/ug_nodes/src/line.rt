ghost use Rattle.std.specs.Prelude.{◌≡◌, [], ◌∷◌, ◌++◌, ◌<◌, ◌↔◌, length, IfOk, IfSome, IsNone, IsTrue, Contains};
ghost use Rattle.ug_nodes.specs.Names.{own_name};
ghost use Rattle.ug_nodes.specs.Lines.{BeginsWith, IsAncestor, is_ancestor};

use crate::name::Name;
use std::alloc::{AllocError, Global};
use std::marker::Model;

/// The names from a starting node down to a node, which comes last. It has at least one.
#[derive(Clone, Drop)]
pub struct Line {
    names: Vec<Name>,
}

impl Model for Line {
    ghost use Rattle.std.specs.Prelude.{List, ◌<◌, length};
    ghost use Rattle.ug_nodes.specs.declared.name.Name.{Name};

    ghost Value = { List Name };

    ghost view = { λ line. line.names.items };

    ghost invariant = { λ line. 0 < length line.names.items };
}

impl Line {
    /// The line of a starting node.
    pub fn start(alloc: Global, name: Name) -> Result<Line, AllocError>
        ensures { IfOk result (λ line. line ≡ name ∷ []) }
    {
        let names = Vec::from_slice(alloc, &[name])?;
        Ok(Line { names })
    }

    /// The line with these names, if there are any. It takes no memory.
    pub fn checked(names: Vec<Name>) -> Option<Line>
        ensures none { IsNone result ↔ (names.items ≡ []) }
        ensures some { IfSome result (λ line. line ≡ names.items) }
    {
        if names.is_empty() {
            return None;
        }
        Some(Line { names })
    }

    /// The line of a node of this name that stands right below.
    pub fn child(&self, alloc: Global, name: Name) -> Result<Line, AllocError>
        ensures { IfOk result (λ line. line ≡ self.now ++ name ∷ []) }
    {
        let mut names = Vec::with_capacity(alloc, self.names.len() + 1)?;
        // There is room for all of them.
        let _ = names.extend_from_slice(&self.names);
        let _ = names.push(name);
        Ok(Line { names })
    }

    /// The name of the node itself, the last one.
    pub fn name(&self) -> Name
        ensures { result ≡ own_name self.now }
    {
        self.names[self.names.len() - 1]
    }

    pub fn as_slice(&self) -> &[Name]
        ensures value { result.now ≡ self.now }
        ensures some { 0 < length self.now }
    {
        self.names.as_slice()
    }
}

/// Whether a name is in a line, so that the line's node is that node or below it.
pub fn is_below(line: &Line, name: &Name) -> bool
    ensures { IsTrue result ↔ Contains line.now name.now }
{
    line.as_slice().contains(name)
}

/// Whether the front's node is a proper ancestor of the line's: the line begins with the front,
/// and is longer. It compares at most the front's names.
#[tactic(auto, using(crate::proofs::LineLemmas::ancestors))]
pub fn is_ancestor(front: &Line, line: &Line) -> bool
    ensures meaning { IsTrue result ↔ IsAncestor front.now line.now }
    ensures test { result ≡ is_ancestor front.now line.now }
{
    is_proper_front(front.as_slice(), line.as_slice())
}

#[tactic(auto, using(crate::proofs::LineLemmas::ancestors))]
fn is_proper_front(front: &[Name], line: &[Name]) -> bool
    ensures { IsTrue result ↔ IsAncestor front.now line.now }
{
    front.len() < line.len() && begins_with(line, front)
}

#[tactic(auto, using(crate::proofs::LineLemmas::beginnings))]
fn begins_with(line: &[Name], front: &[Name]) -> bool
    ensures { IsTrue result ↔ BeginsWith line.now front.now }
{
    if line.len() < front.len() {
        return false;
    }
    for k in 0..front.len() {
        if line[k] != front[k] {
            return false;
        }
    }
    true
}
