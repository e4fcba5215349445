ghost use Rattle.std.specs.Prelude.{◌≡◌, IfErr, OnOk};
ghost use Rattle.ug_rules.specs.Books.{IsSoundBook};
ghost use Rattle.ug_book.specs.Views.{IsSameRun};
ghost use Rattle.ug_desk.specs.Decided.{HasDecided, HasStood, without_orders};

use ug_book::{Book, Unfinished};

/// Decides, and drops the orders. An error says how many steps of the decision stand.
pub fn decide(book: &mut Book) -> Result<(), Unfinished>
    ensures decided { OnOk result (HasDecided book.old book.new) }
    ensures stood { IfErr result (λ e. HasStood e.stood book.old book.new) }
    ensures same { IsSameRun book.old book.new }
    ensures sound { IsSoundBook book.old → IsSoundBook book.new }
{
    let decided = book.decide();
    drop_orders(book);
    decided
}

// Takes all orders that wait, and drops them.
fn drop_orders(book: &mut Book)
    ensures none { book.new ≡ without_orders book.old }
    ensures sound { IsSoundBook book.old → IsSoundBook book.new }
{
    while let Some(_told) = book.next_order() {}
}
