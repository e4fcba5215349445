use std::alloc::{AllocError, Global};
use ug_frames::Order;
use ug_nodes::{Change, Changes, Ticket};

/// What a solver knows of its work.
#[derive(Drop)]
pub struct Solver {
    pub ticket: Ticket,
    pub works: bool,
    /// How many hands it gave.
    pub hands: u64,
    /// How many it is asked for.
    pub asked: u32,
    /// The box that it searches.
    pub changes: Vec<Change>,
}

impl Solver {
    pub fn new(alloc: Global) -> Solver {
        Solver {
            ticket: Ticket { run: 1, number: 0 },
            works: false,
            hands: 0,
            asked: 0,
            changes: Vec::new(alloc),
        }
    }

    /// Obeys an order.
    pub fn obey(&mut self, order: &Order) -> Result<(), AllocError> {
        match order {
            Order::Work {
                ticket,
                changes,
                ..
            } => {
                self.ticket = *ticket;
                self.works = true;
                self.hands = 0;
                self.asked = 0;
                self.changes.clear();
                self.changes.extend_from_slice(changes.as_slice())?;
            }
            Order::CollectIn { count, .. } => self.asked = *count,
            Order::CollectOut { .. } => self.asked = 0,
            Order::Stop { .. } => self.works = false,
            _ => {}
        }
        Ok(())
    }

    /// The next box that it hands: its own with the next column branched on that is whole, if there
    /// is one.
    pub fn next_box(&self, alloc: Global) -> Result<Option<Changes>, AllocError> {
        let column = match self.changes.last() {
            Some(change) => change.column.wrapping_add(1),
            None => 0,
        };
        if column >= 100 {
            return Ok(None);
        }
        let low = if self.hands % 2 == 0 { 0 } else { 4 };
        let high = low + 3;
        let mut list = Vec::from_slice(alloc, &self.changes)?;
        list.push(Change { column, low, high })?;
        Ok(Changes::checked(list))
    }
}
