ghost use Rattle.std.specs.Prelude.{◌≡◌, ◌<◌, [], length};
ghost use Rattle.ug_rules.specs.Books.{IsSoundBook};
ghost use Rattle.ug_book.specs.Views.{IsSameRun};
ghost use Rattle.ug_desk.specs.Answers.{IsTold, told_on};
ghost use Rattle.ug_desk.specs.Dones.{AreFound, HasDone, IsOfTicket};

use ug_base::Task;
use ug_book::Book;
use ug_frames::{Ending, Report};
use ug_nodes::Hands;
use ug_rules::Heard;

/// The end of a task of the rank's ticket, of which no box is left. It takes no memory.
pub fn done(book: &mut Book, rank: u32, task: &Task) -> Heard
    requires there { rank < length book.old.ranks }
    requires ticket { IsOfTicket book.old rank task.now }
    requires none { task.now.boxes ≡ [] }
    ensures done { HasDone rank task.now result book.old book.new }
    ensures same { IsSameRun book.old book.new }
    ensures sound { IsSoundBook book.old → IsSoundBook book.new }
{
    // The task shows that each good point lies in a box handed.
    let _left = task.left();
    let handed = task.handed();
    let taken = book.taken(rank);
    let found = found(handed, taken) as u64;
    let count = count_told(handed, taken, found);
    let heard = book.hear(
        rank,
        Report::Done {
            ticket: task.ticket(),
            cutoff: task.cutoff(),
            count,
            end: Ending::Plain,
        },
    );
    told_on(heard, handed, found)
}

// Returns how many of the handed boxes were taken: all of them, or, if as many were taken, the
// first ones that agree.
fn found(handed: &Hands, taken: &Hands) -> usize
    ensures { AreFound handed.now taken.now result }
{
    if handed.len() != taken.len() {
        return taken.len();
    }
    handed.leading(taken)
}

// Returns the count of a Done of which `found` hands were found: with as many taken it is `found`,
// so that one that differs makes the Done Short.
fn count_told(handed: &Hands, taken: &Hands, found: u64) -> u64
    ensures { IsTold (length handed.now) (length taken.now) found result }
{
    let count = handed.len() as u64;
    if count == taken.len() as u64 {
        found
    } else {
        count
    }
}

// The answer, where a short one names the hands of the task, and those found.
fn told_on(heard: Heard, handed: &Hands, found: u64) -> Heard
    ensures { result ≡ told_on (length handed.now) found heard }
{
    match heard {
        Heard::Short { .. } => Heard::Short {
            told: handed.len() as u64,
            taken: found,
        },
        _ => heard,
    }
}
