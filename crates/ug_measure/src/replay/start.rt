ghost use Rattle.std.specs.Prelude.{IfSome};
ghost use Rattle.ug_rules.specs.Books.{AreSettings};

use crate::replay::words::{count, small, word};
use std::alloc::Global;
use ug_book::{Book, Opening};
use ug_branch::Base;
use ug_mps::read;
use ug_problem::Shared;
use ug_rules::Settings;

// The least X + Y of at least 5.
const SQUARE: &str = r"ROWS
 N Z
 G P
COLUMNS
 M 'MARKER' 'INTORG'
 X Z 1 P 1
 Y Z 1 P 1
RHS
 S P 5
BOUNDS
 UP B X 7
 UP B Y 7
ENDATA
";

// The least X + 2 Y + W where X + Y + W is at least 4 and X - W at most 1.
const CUBE: &str = r"ROWS
 N Z
 G P
 L Q
COLUMNS
 M 'MARKER' 'INTORG'
 X Z 1 P 1
 X Q 1
 Y Z 2 P 1
 W Z 1 P 1
 W Q -1
RHS
 S P 4 Q 1
BOUNDS
 UP B X 3
 UP B Y 3
 UP B W 3
ENDATA
";

// The least X + Y + W of at least 5.
const THREE: &str = r"ROWS
 N Z
 G P
COLUMNS
 M 'MARKER' 'INTORG'
 X Z 1 P 1
 Y Z 1 P 1
 W Z 1 P 1
RHS
 S P 5
BOUNDS
 UP B X 3
 UP B Y 3
 UP B W 3
ENDATA
";

// The least X from 2 to 9.
const LINE: &str = r"ROWS
 N Z
COLUMNS
 M 'MARKER' 'INTORG'
 X Z 1
BOUNDS
 LO B X 2
 UP B X 9
ENDATA
";

// The settings of a schedule's first line.
fn settings(words: &[&str]) -> Option<Settings>
    ensures { IfSome result AreSettings }
{
    let solvers = small(word(words, 4))?;
    let low = small(word(words, 8))?;
    let high = small(word(words, 10))?;
    let winner = count(word(words, 12))?;
    let gap = small(word(words, 14))?;
    if solvers == 0 || high < low {
        return None;
    }
    Some(Settings {
        solvers,
        racing: word(words, 6) == "1",
        base: if word(words, 16) == "surrogate" {
            Base::Surrogate
        } else {
            Base::Bound
        },
        low,
        high,
        every: 1,
        limit: 1000,
        winner,
        gap: i128::from(gap),
    })
}

fn problem(alloc: Global, name: &str) -> Option<Shared> {
    let text = match name {
        "SQUARE" => SQUARE,
        "THREE" => THREE,
        "LINE" => LINE,
        _ => CUBE,
    };
    let problem = read(alloc, text.as_bytes(), None).ok()?;
    Some(Shared::own(problem))
}

/// The book with which a schedule begins.
pub fn begin(alloc: Global, words: &[&str]) -> Option<Book> {
    let settings = settings(words)?;
    let problem = problem(alloc, word(words, 2))?;
    let opening = Opening::new(alloc, problem, 1, settings).ok()?;
    let book = Book::new(alloc, &opening);
    drop(opening);
    book.ok()
}
