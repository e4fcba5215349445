//! When the work ends.

ghost use Rattle.std.specs.Prelude.{◌≡◌, true, MatchBool};
ghost use Rattle.ug_rules.specs.Books.{IsSoundBook};
ghost use Rattle.ug_restart.specs.Outcomes.{IsRight};
ghost use Rattle.ug_coord.specs.Ends.{AllDead, IsAnswered, IsOver};

use ug_book::Book;

/// Whether an end is due.
pub fn is_over(book: &Book) -> bool
    ensures { MatchBool result (IsOver book.now) (¬ IsOver book.now) }
{
    if is_answered(book) {
        return true;
    }
    if book.settings().limit <= book.heard() {
        return true;
    }
    !is_any_alive(book)
}

/// Whether no node is held. The answer of a sound book is then right.
pub fn is_answered(book: &Book) -> bool
    ensures none { MatchBool result (IsAnswered book.now) (¬ IsAnswered book.now) }
    ensures right { result ≡ true → IsSoundBook book.now → IsRight book.now }
{
    match book.answer() {
        Some(_) => true,
        None => false,
    }
}

// Whether some rank is alive.
fn is_any_alive(book: &Book) -> bool
    ensures { MatchBool result (¬ AllDead book.now) (AllDead book.now) }
{
    for rank in 0..book.settings().solvers {
        if book.is_alive(rank) {
            return true;
        }
    }
    false
}
