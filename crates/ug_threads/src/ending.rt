//! How a run has ended, by its book.

ghost use Rattle.std.specs.Prelude.{◌≡◌, ◌↔◌, [], Some, IsTrue};
ghost use Rattle.ug_rules.specs.State.{held_nodes};
ghost use Rattle.ug_rules.specs.Books.{IsSoundBook};
ghost use Rattle.ug_restart.specs.Outcomes.{IfBook};
ghost use Rattle.ug_restart.specs.Outcomes.{HasFeasible, IfAnswered, IfLimited, IsLimited, IsRight, IsStranded};
ghost use Rattle.ug_threads.specs.Traces.{IsLedByWorkers};
ghost use Rattle.ug_threads.specs.Ends.{IsEnding};

use ug_book::Book;
use ug_desk::Locked;
use ug_restart::End;

/// The book of what was behind a lock, which began with this opening.
pub fn of_opening(locked: Locked) -> Book
    ensures { (o : _) → locked.opening ≡ o → IsLedByWorkers o locked → IsEnding o result }
{
    locked.into_book()
}

/// How a run ended, by its ending book, if it has one.
#[tactic(auto, using(crate::proofs::Endings::book_feasible))]
pub fn end_of(ended: Option<Book>) -> End
    ensures same { IfBook result (λ book. ended ≡ Some book) }
    ensures feasible { IfBook result HasFeasible }
    ensures answered { IfAnswered result (λ book. held_nodes book ≡ []) }
    ensures right { IfAnswered result (λ book. IsSoundBook book → IsRight book) }
    ensures limited { IfLimited result IsLimited }
    ensures stranded { IsStranded result → ⊥ }
{
    let Some(book) = ended else {
        return End::Memory;
    };
    // Whatever it began with, the incumbent of a book is feasible for its problem.
    let _problem = book.problem();
    if is_answered(&book) {
        return End::Answered(book);
    }
    if book.settings().limit <= book.heard() {
        return End::Limited(book);
    }
    drop(book);
    End::Memory
}

// Whether no node is held.
fn is_answered(book: &Book) -> bool
    ensures none { IsTrue result ↔ (held_nodes book.now ≡ []) }
    ensures right { IsTrue result → IsSoundBook book.now → IsRight book.now }
{
    book.answer().is_some()
}
