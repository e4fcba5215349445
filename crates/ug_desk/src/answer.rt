ghost use Rattle.std.specs.Prelude.{◌≡◌, ◌<◌, ◌≤◌, true, length, IfOk, MatchBool};
ghost use Rattle.ug_ranks.specs.States.{state_at};
ghost use Rattle.ug_ranks.specs.Looks.{is_joined};
ghost use Rattle.ug_desk.specs.Givens.{took_of};
ghost use Rattle.ug_desk.specs.Takes.{IsAnswer, IsOver, IsUnderWay};

use crate::given::Given;
use crate::parcel::Parcel;
use std::alloc::{AllocError, Global};
use ug_book::Book;

/// What the book gives a rank that has joined.
#[tactic(auto, using(crate::proofs::Works::current_changes, crate::proofs::Works::at_work))]
pub fn answer(alloc: Global, book: &Book, rank: u32) -> Result<Given, AllocError>
    requires there { rank < length book.now.ranks }
    requires joined { is_joined (state_at book.now.ranks rank) ≡ true }
    ensures { IfOk result (λ given. IsAnswer book.now rank (took_of given)) }
{
    // The problem shows that the book is one.
    let _problem = book.problem();
    if is_over(book) {
        return Ok(Given::NoMore);
    }
    match book.current(rank) {
        Some(work) => {
            let parcel = Parcel::of(alloc, book, work.ticket, work.params, work.node)?;
            Ok(Given::Node(parcel))
        }
        None => Ok(Given::Nothing),
    }
}

/// Does the book hold no node, or is the limit of reports reached?
pub fn is_over(book: &Book) -> bool
    ensures { MatchBool result (IsOver book.now) (IsUnderWay book.now) }
{
    book.answer().is_some() || is_spent(book)
}

/// Is the limit of reports reached?
pub fn is_spent(book: &Book) -> bool
    ensures { MatchBool result
        (book.now.settings.limit ≤ book.now.heard)
        (book.now.heard < book.now.settings.limit) }
{
    book.settings().limit <= book.heard()
}
