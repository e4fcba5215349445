ghost use Rattle.std.specs.Prelude.{◌≡◌, ◌++◌, IfOk, OnOk};
ghost use Rattle.std.specs.Option.{option_copied};
ghost use Rattle.ug_nodes.specs.Primitive.{lent};
ghost use Rattle.ug_rules.specs.State.{node_at, nodes_in, nodes_of, raced_node};

use std::alloc::{AllocError, Global};
use ug_nodes::Node;
use ug_pool::{Entry, OpenNodes, Pool};
use ug_ranks::{Ranks, State};
use ug_stock::Frontier;

// The nodes of the pool, of the ranks, and the one that is raced.
pub fn held_nodes<'a>(alloc: Global, frontier: &'a Frontier) -> Result<Vec<&'a Node>, AllocError>
    ensures { IfOk result (λ nodes. lent nodes.items ≡ nodes_in frontier.now.pool.entries
        ++ nodes_of frontier.now.ranks ++ raced_node frontier.now.raced) }
{
    let mut nodes = Vec::new(alloc);
    push_pool(&mut nodes, &frontier.pool)?;
    push_ranks(&mut nodes, &frontier.ranks)?;
    push_entry(&mut nodes, frontier.raced.as_ref())?;
    Ok(nodes)
}

#[tactic(auto, using(crate::proofs::Nodes::one_entry_more))]
fn push_pool<'a>(nodes: &mut Vec<&'a Node>, pool: &'a Pool) -> Result<(), AllocError>
    ensures { OnOk result (lent nodes.new.items
        ≡ lent nodes.old.items ++ nodes_in pool.now.entries) }
{
    for at in 0..pool.len() {
        push_entry(nodes, pool.get(at))?;
    }
    Ok(())
}

#[tactic(auto, using(crate::proofs::Nodes::one_rank_more))]
fn push_ranks<'a>(nodes: &mut Vec<&'a Node>, ranks: &'a Ranks) -> Result<(), AllocError>
    ensures { OnOk result (lent nodes.new.items ≡ lent nodes.old.items ++ nodes_of ranks.now) }
{
    for state in ranks.as_slice() {
        push_work(nodes, state)?;
    }
    Ok(())
}

fn push_entry<'a>(nodes: &mut Vec<&'a Node>, held: Option<&'a Entry>) -> Result<(), AllocError>
    ensures { OnOk result (lent nodes.new.items
        ≡ lent nodes.old.items ++ raced_node (option_copied held.entry)) }
{
    if let Some(entry) = held {
        nodes.push(&entry.node)?;
    }
    Ok(())
}

fn push_work<'a>(nodes: &mut Vec<&'a Node>, state: &'a State) -> Result<(), AllocError>
    ensures { OnOk result (lent nodes.new.items ≡ lent nodes.old.items ++ node_at state.now) }
{
    if let State::Active(work) = state {
        nodes.push(&work.node)?;
    }
    Ok(())
}
