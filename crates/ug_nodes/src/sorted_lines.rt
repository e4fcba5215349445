ghost use Rattle.std.specs.Prelude.{◌≡◌, ◌↔◌, ◌≤◌, length, map, take, Contains, IfOk, IsTrue};
ghost use Rattle.std.specs.List.Sorted.{IsPermutation};
ghost use Rattle.ug_nodes.specs.SortedLines.{AreSorted, HasFront, fronts, is_below_any, line_of};

use crate::name::Name;
use crate::node::Node;
use std::alloc::{AllocError, Global};

// The lines of the nodes.
fn lines_of<'a>(alloc: Global, nodes: &[&'a Node]) -> Result<Vec<&'a [Name]>, AllocError>
    ensures { IfOk result (λ lines. fronts lines.items ≡ map line_of nodes.now) }
{
    let mut lines = Vec::new(alloc);
    for node in nodes {
        lines.push(node.line.as_slice())?;
    }
    Ok(lines)
}

// The lines of the nodes in order: a front comes before what resumes from it.
pub fn sorted_lines<'a>(alloc: Global, nodes: &[&'a Node]) -> Result<Vec<&'a [Name]>, AllocError>
    ensures same { IfOk result (λ lines.
        IsPermutation (map line_of nodes.now) (fronts lines.items)) }
    ensures order { IfOk result (λ lines. AreSorted lines.items) }
{
    let mut lines = lines_of(alloc, nodes)?;
    lines.sort()?;
    Ok(lines)
}

// Whether the line's node has a proper ancestor among the nodes of the lines.
pub fn is_below_any(lines: &[&[Name]], line: &[Name]) -> bool
    requires { AreSorted lines.now }
    ensures { result ≡ is_below_any (fronts lines.now) line.now }
{
    has_front(lines, line)
}

// Whether a proper front of the line is one of the lines.
fn has_front(lines: &[&[Name]], line: &[Name]) -> bool
    requires { AreSorted lines.now }
    ensures { IsTrue result ↔ HasFront (fronts lines.now) line.now }
{
    for k in 0..line.len() {
        if is_front_among(lines, line, k) {
            return true;
        }
    }
    false
}

// Whether the first names of a line, this many, are one of the lines.
fn is_front_among(lines: &[&[Name]], line: &[Name], k: usize) -> bool
    requires sorted { AreSorted lines.now }
    requires within { k ≤ length line.now }
    ensures { IsTrue result ↔ Contains (fronts lines.now) (take k line.now) }
{
    is_among(lines, &line[..k])
}

// Whether a line is one of the lines.
fn is_among(lines: &[&[Name]], line: &[Name]) -> bool
    requires { AreSorted lines.now }
    ensures { IsTrue result ↔ Contains (fronts lines.now) line.now }
{
    lines.binary_search(&line).is_ok()
}
