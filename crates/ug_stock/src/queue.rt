ghost use Rattle.std.specs.Prelude.{◌≡◌, ◌≤◌, ◌<◌, ◌+◌, [], ◌∷◌, ◌++◌, length, max, MatchOption, OnOk, OnErr, IsOk, IsNone, IfSome};
ghost use Rattle.std.specs.VecDeque.{deque_len, deque_capacity};
ghost use Rattle.ug_stock.specs.Queues.{IsPushed, IsTold};

use std::alloc::{AllocError, Global};
use std::collections::VecDeque;
use std::marker::Model;
use ug_rules::Told;

/// Orders for ranks, the earliest first.
#[derive(Drop)]
pub struct Queue {
    orders: VecDeque<Told>,
    spare: usize,
}

impl Model for Queue {
    ghost use Rattle.std.specs.Prelude.{◌+◌, ◌≤◌};
    ghost use Rattle.std.specs.VecDeque.{deque_len, deque_capacity};
    ghost use Rattle.ug_stock.specs.Queues.{Queued};

    ghost Value = { Queued };

    ghost view = { λ queue. record { orders = queue.orders.items; spare = queue.spare } };

    ghost invariant = { λ queue. deque_len queue.orders + queue.spare ≤ deque_capacity queue.orders };
}

impl Queue {
    /// No order. It takes no memory.
    pub fn new(alloc: Global) -> Queue
        ensures { result ≡ record { orders = []; spare = 0 } }
    {
        Queue {
            orders: VecDeque::new(alloc),
            spare: 0,
        }
    }

    /// How many more orders may be queued without memory.
    pub fn spare(&self) -> usize
        ensures { result ≡ self.now.spare }
    {
        self.spare
    }

    /// Takes memory for `n` orders more, if there is less to spare.
    pub fn reserve(&mut self, n: usize) -> Result<(), AllocError>
        ensures ok { OnOk result (self.new ≡ record self.old { spare = max self.old.spare n }) }
        ensures err { OnErr result (self.new ≡ self.old) }
        ensures enough { n ≤ self.old.spare → IsOk result }
    {
        self.orders.reserve(n)?;
        self.spare = self.spare.max(n);
        Ok(())
    }

    /// Queues an order behind the others, in a spare place.
    pub fn push(&mut self, told: Told)
        requires { 0 < self.old.spare }
        ensures { IsPushed told self.old self.new }
    {
        put_last(&mut self.orders, told);
        self.spare -= 1;
    }

    /// The earliest order, which leaves, and its place is spare.
    pub fn next(&mut self) -> Option<Told>
        ensures { MatchOption result
            ((self.old.orders ≡ []) × (self.new ≡ self.old))
            (IsTold self.old self.new) }
    {
        match take_first(&mut self.orders) {
            Some(told) => {
                self.spare += 1;
                Some(told)
            }
            None => None,
        }
    }
}

// Puts an order behind the others, where there is room.
fn put_last(orders: &mut VecDeque<Told>, told: Told)
    requires room { deque_len orders.old < deque_capacity orders.old }
    ensures items { orders.new.items ≡ orders.old.items ++ told ∷ [] }
    ensures len { deque_len orders.new ≡ deque_len orders.old + 1 }
    ensures capacity { deque_capacity orders.old ≤ deque_capacity orders.new }
{
    let _ = orders.push_back(told);
}

fn take_first(orders: &mut VecDeque<Told>) -> Option<Told>
    ensures none { IsNone result → (orders.old.items ≡ []) × (orders.new.items ≡ []) }
    ensures some { IfSome result (λ told. orders.old.items ≡ told ∷ orders.new.items) }
    ensures len { IfSome result (λ _. deque_len orders.new + 1 ≡ deque_len orders.old) }
    ensures capacity { deque_capacity orders.new ≡ deque_capacity orders.old }
{
    orders.pop_front()
}
