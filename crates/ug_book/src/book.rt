use crate::incumbent::Incumbent;
use std::marker::Model;
use ug_stock::{Frontier, Run};

/// The state of a coordinator: what no call changes, the incumbent, the frontier, and the number of
/// reports received.
#[derive(Drop)]
pub struct Book {
    pub(crate) run: Run,
    pub(crate) incumbent: Incumbent,
    pub(crate) frontier: Frontier,
    pub(crate) heard: u64,
}

impl Model for Book {
    ghost use Rattle.ug_rules.specs.State.{BookState};
    ghost use Rattle.ug_book.specs.Views.{IsRoomy, state_of};

    ghost Value = { BookState };

    ghost view = { state_of };

    ghost invariant = { IsRoomy };
}
