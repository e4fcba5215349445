ghost use Rattle.std.specs.Prelude.{◌≡◌, ◌<◌, [], length, replicate, IfOk, MatchOption};
ghost use Rattle.ug_pool.specs.Pools.{entry_at};
ghost use Rattle.ug_stock.specs.Assigning.{IsTakenOut};

use std::alloc::{AllocError, Global};
use ug_nodes::Changes;
use ug_pool::{Entry, OpenNodes, Pool};

/// Takes the first entry out of the pool.
#[tactic(auto, using(crate::proofs::FirstOfPool::none_first))]
pub fn take_first(pool: &mut Pool) -> Option<Entry>
    ensures { MatchOption result
        ((pool.old.entries ≡ []) × (pool.new ≡ pool.old))
        (IsTakenOut pool.old pool.new) }
{
    let Some(first) = pool.first() else {
        return None;
    };
    let floor = first.floor;
    let node = pool.take_least()?;
    Some(Entry { floor, node })
}

/// A copy of the changes of the pool's first node.
#[tactic(auto, using(crate::proofs::FirstOfPool::none_first))]
pub fn first_changes(pool: &Pool) -> Result<Changes, AllocError>
    requires { 0 < length pool.now.entries }
    ensures { IfOk result (λ changes. changes ≡ (entry_at pool.now.entries 0).node.changes) }
{
    match pool.first() {
        Some(first) => first.node.changes.copy(),
        None => Err(AllocError),
    }
}

/// Returns `n` copies of the changes.
pub fn copies(alloc: Global, changes: &Changes, n: usize) -> Result<Vec<Changes>, AllocError>
    ensures { IfOk result (λ copies. copies.items ≡ replicate n changes.now) }
{
    let mut copies = Vec::new(alloc);
    for _ in 0..n {
        copies.push(changes.copy()?)?;
    }
    Ok(copies)
}
