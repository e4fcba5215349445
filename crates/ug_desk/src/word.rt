ghost use Rattle.std.specs.Prelude.{◌≡◌, ◌≢◌, ℤ, ◌-◌, ◌-ℤ◌, ◌≤ℤ◌, ◌^◌, ◌*◌, ◌≤◌, ◌<◌, min, Option, IfSome, unsigned_abs};
ghost use Rattle.ug_rules.specs.declared.heard.Heard.TheVariants.{Kept};
ghost use Rattle.ug_desk.specs.Words.{cutoff_at, floor_of, no_word, word_at, word_of};

use ug_book::Book;
use ug_problem::Problem;
use ug_rules::Heard;

/// The word of the incumbent's cutoff.
pub fn word_of(book: &Book) -> u64
    ensures { result ≡ word_of book.now }
{
    let floor = floor_of(book.problem().problem());
    word_at(floor, book.cutoff())
}

/// The word of the incumbent's cutoff behind a point that was answered so, and what it was before.
pub fn word_behind(book: &Book, before: u64, heard: Heard) -> u64
    ensures kept { heard ≡ Kept → result ≡ word_of book.now }
    ensures other { heard ≢ Kept → result ≡ before }
{
    if heard == Heard::Kept {
        return word_of(book);
    }
    before
}

/// What no feasible value is below.
pub fn floor_of(problem: &Problem) -> i128
    ensures value { result ≡ floor_of problem.now }
    ensures small { unsigned_abs result ≤ 2 * 10 ^ 37 }
{
    problem.floor(problem.root())
}

// The word of a cutoff, if there is one.
fn word_at(floor: i128, cutoff: Option<i128>) -> u64
    requires floor { unsigned_abs floor ≤ 2 * 10 ^ 37 }
    requires small { IfSome cutoff (λ c. unsigned_abs c ≤ 2 * 10 ^ 37) }
    ensures { result ≡ word_at floor cutoff }
{
    match cutoff {
        Some(cutoff) => above(floor, cutoff),
        None => u64::MAX,
    }
}

// How far a cutoff is above the floor, or the greatest word where that is further.
fn above(floor: i128, cutoff: i128) -> u64
    requires floor { unsigned_abs floor ≤ 2 * 10 ^ 37 }
    requires small { unsigned_abs cutoff ≤ 2 * 10 ^ 37 }
    ensures { result ≡ min (unsigned_abs (cutoff -ℤ floor)) no_word }
{
    let distance = (cutoff - floor).unsigned_abs();
    if distance < u64::MAX as u128 {
        distance as u64
    } else {
        u64::MAX
    }
}

/// The cutoff that a word says.
pub fn cutoff_at(floor: i128, word: u64) -> Option<i128>
    requires { unsigned_abs floor ≤ 2 * 10 ^ 37 }
    ensures { result ≡ cutoff_at floor word }
{
    if word == u64::MAX {
        return None;
    }
    Some(floor + word as i128)
}
