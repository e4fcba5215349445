ghost use Rattle.std.specs.Prelude.{◌≡◌, ◌≤◌, ◌<◌, ◌-◌, ◌+◌, [], ◌∷◌, length, vec_len, vec_capacity, max, MatchOption, OnOk, OnErr, IsOk};
ghost use Rattle.ug_pool.specs.Pools.{IsInOrder, IsPut, IsTaken, IsDroppedTo, with_entry, with_floor_below, without_below, is_before, entry_at};
ghost use Rattle.ug_pool.specs.Plain.{IsLeast, in_order};

use crate::entry::Entry;
use crate::open_nodes::OpenNodes;
use std::alloc::{AllocError, Global};
use std::marker::Model;
use ug_nodes::{Line, Node, is_ancestor};

/// Open nodes in no order, the latest first. Each call looks through all of them.
#[derive(Drop)]
pub struct PlainPool {
    entries: Vec<Entry>,
    spare: usize,
}

impl Model for PlainPool {
    ghost use Rattle.std.specs.Prelude.{◌+◌, ◌≤◌, vec_len, vec_capacity};
    ghost use Rattle.ug_pool.specs.Pools.{Pooled};
    ghost use Rattle.ug_pool.specs.Plain.{in_order};

    ghost Value = { Pooled };

    ghost view = { λ pool. record { entries = in_order pool.entries.items; spare = pool.spare } };

    ghost invariant = { λ pool. vec_len pool.entries + pool.spare ≤ vec_capacity pool.entries };
}

impl PlainPool {
    /// The empty pool. It takes no memory.
    pub fn new(alloc: Global) -> PlainPool
        ensures { result ≡ record { entries = []; spare = 0 } }
    {
        PlainPool {
            entries: Vec::new(alloc),
            spare: 0,
        }
    }
}

impl OpenNodes for PlainPool {
    ghost pooled = { λ pool. pool };

    fn len(&self) -> usize {
        self.entries.len()
    }

    fn spare(&self) -> usize {
        self.spare
    }

    fn reserve(&mut self, n: usize) -> Result<(), AllocError> {
        self.entries.reserve(n)?;
        self.spare = self.spare.max(n);
        Ok(())
    }

    fn put(&mut self, node: Node, floor: i128) {
        let _ = self.entries.insert(0, Entry { floor, node });
        self.spare -= 1;
    }

    fn take_least(&mut self) -> Option<Node> {
        if self.entries.is_empty() {
            return None;
        }
        let entry = take_out(&mut self.entries);
        self.spare += 1;
        Some(entry.node)
    }

    fn drop_from(&mut self, value: i128) {
        let before = self.entries.len();
        keep_with_floor_below(&mut self.entries, value);
        self.spare += before - self.entries.len();
    }

    fn drop_below(&mut self, line: &Line) {
        let before = self.entries.len();
        keep_others(&mut self.entries, line);
        self.spare += before - self.entries.len();
    }
}

// Takes out the first entry in order.
fn take_out(entries: &mut Vec<Entry>) -> Entry
    requires { 0 < length entries.old.items }
    ensures first { in_order entries.old.items ≡ result ∷ in_order entries.new.items }
    ensures len { vec_len entries.new + 1 ≡ vec_len entries.old }
    ensures capacity { vec_capacity entries.new ≡ vec_capacity entries.old }
{
    let at = least_of(entries);
    entries.remove(at)
}

// The place of the least entry, the last of those.
fn least_of(entries: &[Entry]) -> usize
    requires { 0 < length entries.now }
    ensures { IsLeast (length entries.now) entries.now result }
{
    let mut best = 0;
    for k in 1..entries.len() {
        best = least_with(entries, best, k);
    }
    best
}

// The least of the first k entries, or entry k.
fn least_with(entries: &[Entry], best: usize, k: usize) -> usize
    requires there { k < length entries.now }
    requires least { IsLeast k entries.now best }
    ensures { IsLeast (k + 1) entries.now result }
{
    if is_ahead(entries, best, k) { best } else { k }
}

fn is_ahead(entries: &[Entry], i: usize, k: usize) -> bool
    requires first { i < length entries.now }
    requires second { k < length entries.now }
    ensures { result ≡ is_before (entry_at entries.now i) (entry_at entries.now k) }
{
    entries[i].is_before(&entries[k])
}

// Keeps the entries with a floor below the value.
fn keep_with_floor_below(entries: &mut Vec<Entry>, value: i128)
    ensures items { entries.new.items ≡ with_floor_below value entries.old.items }
    ensures fewer { vec_len entries.new ≤ vec_len entries.old }
    ensures capacity { vec_capacity entries.new ≡ vec_capacity entries.old }
{
    entries.retain(|entry| entry.floor < value);
}

// Keeps the entries that do not have the line's node as a proper ancestor.
fn keep_others(entries: &mut Vec<Entry>, line: &Line)
    ensures items { entries.new.items ≡ without_below line.now entries.old.items }
    ensures fewer { vec_len entries.new ≤ vec_len entries.old }
    ensures capacity { vec_capacity entries.new ≡ vec_capacity entries.old }
{
    entries.retain(|entry| !is_ancestor(line, &entry.node.line));
}
