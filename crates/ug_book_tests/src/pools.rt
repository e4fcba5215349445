use crate::expect::holds;
use std::alloc::Global;
use ug_nodes::{Changes, Line, Name, Node, Ticket};
use ug_pool::{OpenNodes, PlainPool, Pool};

// Puts a starting node of this hand number. Whether there was memory for it.
fn put<P: OpenNodes>(alloc: Global, pool: &mut P, hand: u64, floor: i128) -> bool {
    let ticket = Ticket { run: 1, number: 1 };
    let Ok(line) = Line::start(alloc, Name { ticket, hand }) else {
        return false;
    };
    let changes = Changes::new(Vec::new(alloc));
    let node = Node { line, changes };
    match pool.reserve(1) {
        Ok(()) => {
            pool.put(node, floor);
            true
        }
        Err(_) => {
            drop(node);
            false
        }
    }
}

// The hand number of the node that is taken next.
fn take<P: OpenNodes>(pool: &mut P) -> Option<u64> {
    match pool.take_least() {
        Some(node) => {
            let hand = node.line.name().hand;
            drop(node);
            Some(hand)
        }
        None => None,
    }
}

// Whether the nodes are taken by their floors, and those of one floor by their names.
fn gives_in_order<P: OpenNodes>(alloc: Global, pool: &mut P) -> bool {
    put(alloc, pool, 1, 4)
        && put(alloc, pool, 3, 2)
        && put(alloc, pool, 2, 2)
        && take(pool) == Some(2)
        && take(pool) == Some(3)
        && take(pool) == Some(1)
        && take(pool).is_none()
}

// The floors of twenty thousand nodes are all different, and not in the order of their names.
fn put_many(alloc: Global, pool: &mut Pool) -> bool {
    let mut so = true;
    for hand in 0..20_000 {
        so = so && put(alloc, pool, hand, i128::from(hand * 7_919 % 20_000));
    }
    so
}

// Whether the node that is taken next has this floor.
fn takes(pool: &mut Pool, floor: u64) -> bool {
    match take(pool) {
        Some(hand) => hand < 20_000 && hand * 7_919 % 20_000 == floor,
        None => false,
    }
}

fn are_in_order(pool: &mut Pool) -> bool {
    for floor in 0..20_000 {
        if !takes(pool, floor) {
            return false;
        }
    }
    pool.len() == 0
}

#[test]
fn pools_give_their_nodes_in_order(rt: HostRuntime) {
    let alloc = rt.alloc();
    let mut plain = PlainPool::new(alloc);
    holds(&rt, gives_in_order(alloc, &mut plain));
    drop(plain);
    let mut pool = Pool::new(alloc);
    holds(&rt, gives_in_order(alloc, &mut pool));
    holds(&rt, put_many(alloc, &mut pool));
    holds(&rt, are_in_order(&mut pool));
    drop(pool);
}
