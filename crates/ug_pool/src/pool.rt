ghost use Rattle.std.specs.Prelude.{◌≡◌, ◌≤◌, ◌<◌, ◌+◌, ◌-◌, [], ◌∷◌, length, take, max, slice_get, MatchOption, IsNone, IfSome, OnOk, OnErr, IsOk};
ghost use Rattle.std.specs.Option.{option_copied};
ghost use Rattle.ug_pool.specs.Pools.{IsInOrder, IsPut, IsTaken, IsDroppedTo, with_entry, with_floor_below, without_below};
ghost use Rattle.ug_pool.specs.Steps.{IsPlace};
ghost use Rattle.std.specs.VecDeque.{deque_len, deque_capacity};
ghost use Rattle.std.specs.List.{insert};

use crate::entry::Entry;
use crate::open_nodes::OpenNodes;
use std::alloc::{AllocError, Global};
use std::collections::VecDeque;
use std::marker::Model;
use ug_nodes::{Line, Node, is_ancestor};

/// Open nodes, in order of their floors, and of their names where the floors are the same.
#[derive(Drop)]
pub struct Pool {
    entries: VecDeque<Entry>,
    spare: usize,
}

impl Model for Pool {
    ghost use Rattle.std.specs.Prelude.{◌+◌, ◌≤◌};
    ghost use Rattle.std.specs.VecDeque.{deque_len, deque_capacity};
    ghost use Rattle.ug_pool.specs.Pools.{Pooled, IsInOrder};

    ghost Value = { Pooled };

    ghost view = { λ pool. record { entries = pool.entries.items; spare = pool.spare } };

    ghost invariant = { λ pool. record {
      in_order : IsInOrder pool.entries.items;
      has_room : deque_len pool.entries + pool.spare ≤ deque_capacity pool.entries;
    } };
}

impl Pool {
    /// The empty pool. It takes no memory.
    pub fn new(alloc: Global) -> Pool
        ensures { result ≡ record { entries = []; spare = 0 } }
    {
        Pool {
            entries: VecDeque::new(alloc),
            spare: 0,
        }
    }

    /// The node at a place in order, with its floor.
    pub fn get(&self, at: usize) -> Option<&Entry>
        ensures { option_copied result ≡ slice_get self.now.entries at }
    {
        self.entries.get(at)
    }

    /// The node that `take_least` would take, with its floor.
    pub fn first(&self) -> Option<&Entry>
        ensures { option_copied result ≡ slice_get self.now.entries 0 }
    {
        self.get(0)
    }
}

impl OpenNodes for Pool {
    ghost pooled = { λ pool. pool };

    fn len(&self) -> usize {
        self.entries.len()
    }

    fn spare(&self) -> usize {
        self.spare
    }

    fn reserve(&mut self, n: usize) -> Result<(), AllocError> {
        self.entries.reserve(n)?;
        self.spare = self.spare.max(n);
        Ok(())
    }

    fn put(&mut self, node: Node, floor: i128) {
        let entry = Entry { floor, node };
        place(&mut self.entries, entry);
        self.spare -= 1;
    }

    fn take_least(&mut self) -> Option<Node> {
        match take_first(&mut self.entries) {
            Some(entry) => {
                self.spare += 1;
                Some(entry.node)
            }
            None => None,
        }
    }

    fn drop_from(&mut self, value: i128) {
        let kept = first_from(&self.entries, value);
        self.spare += self.entries.len() - kept;
        self.entries.truncate(kept);
    }

    fn drop_below(&mut self, line: &Line) {
        let before = self.entries.len();
        keep_others(&mut self.entries, line);
        self.spare += before - self.entries.len();
    }
}

// Puts an entry in, where there is room.
fn place(entries: &mut VecDeque<Entry>, entry: Entry)
    requires order { IsInOrder entries.old.items }
    requires room { deque_len entries.old < deque_capacity entries.old }
    ensures items { entries.new.items ≡ with_entry entry entries.old.items }
    ensures order { IsInOrder entries.new.items }
    ensures len { deque_len entries.new ≡ deque_len entries.old + 1 }
    ensures capacity { deque_capacity entries.old ≤ deque_capacity entries.new }
{
    let at = place_of(entries, &entry);
    insert(entries, at, entry);
}

// How many entries this one is not before.
fn place_of(entries: &VecDeque<Entry>, entry: &Entry) -> usize
    requires { IsInOrder entries.now.items }
    ensures { IsPlace entry.now entries.now.items result }
{
    entries.partition_point(|other| !entry.is_before(other))
}

fn insert(entries: &mut VecDeque<Entry>, at: usize, entry: Entry)
    requires there { at ≤ deque_len entries.old }
    requires room { deque_len entries.old < deque_capacity entries.old }
    ensures items { entries.new.items ≡ insert entries.old.items at entry }
    ensures len { deque_len entries.new ≡ deque_len entries.old + 1 }
    ensures capacity { deque_capacity entries.old ≤ deque_capacity entries.new }
{
    let _ = entries.insert(at, entry);
}

fn take_first(entries: &mut VecDeque<Entry>) -> Option<Entry>
    ensures none { IsNone result → (entries.old.items ≡ []) × (entries.new.items ≡ []) }
    ensures some { IfSome result (λ entry. entries.old.items ≡ entry ∷ entries.new.items) }
    ensures len { IfSome result (λ _. deque_len entries.new + 1 ≡ deque_len entries.old) }
    ensures capacity { deque_capacity entries.new ≡ deque_capacity entries.old }
{
    entries.pop_front()
}

// How many entries have a floor below the value.
fn first_from(entries: &VecDeque<Entry>, value: i128) -> usize
    requires { IsInOrder entries.now.items }
    ensures within { result ≤ deque_len entries.now }
    ensures kept { take result entries.now.items ≡ with_floor_below value entries.now.items }
{
    entries.partition_point(|entry| entry.floor < value)
}

// Keeps the entries that do not have the line's node as a proper ancestor.
fn keep_others(entries: &mut VecDeque<Entry>, line: &Line)
    requires { IsInOrder entries.old.items }
    ensures items { entries.new.items ≡ without_below line.now entries.old.items }
    ensures order { IsInOrder entries.new.items }
    ensures fewer { deque_len entries.new ≤ deque_len entries.old }
    ensures capacity { deque_capacity entries.new ≡ deque_capacity entries.old }
{
    entries.retain(|entry| !is_ancestor(line, &entry.node.line));
}
