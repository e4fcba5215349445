ghost use Rattle.std.specs.Prelude.{◌≡◌, ◌<◌, length, IfErr, IfOk, OnErr};
ghost use Rattle.ug_rules.specs.Books.{IsSoundBook};
ghost use Rattle.ug_book.specs.Views.{IsSameRun};
ghost use Rattle.ug_desk.specs.Givens.{took_of};
ghost use Rattle.ug_desk.specs.Takes.{HasAnswered, IsCutShort, tickets_after};

use crate::answer::answer;
use crate::decide::decide;
use crate::given::Given;
use std::alloc::Global;
use ug_book::Book;
use ug_nodes::Ticket;
use ug_worker::Untaken;

/// The rank joins where it is absent or dead, the book decides, and answers what it has for the
/// rank.
pub fn take(alloc: Global, book: &mut Book, rank: u32) -> Result<Given, Untaken>
    requires { rank < length book.old.ranks }
    ensures ok { IfOk result (λ given.
        HasAnswered rank (took_of given) book.old book.new) }
    ensures err { IfErr result (λ end. IsCutShort rank end book.old book.new) }
    ensures same { IsSameRun book.old book.new }
    ensures sound { IsSoundBook book.old → IsSoundBook book.new }
{
    book.join(rank);
    if let Err(unfinished) = decide(book) {
        return Err(Untaken::Deciding {
            stood: unfinished.stood,
        });
    }
    match answer(alloc, book, rank) {
        Ok(given) => Ok(given),
        Err(_) => Err(Untaken::Making),
    }
}

/// The ticket of work that was taken is the pass's last.
pub fn note(tickets: &mut Vec<Ticket>, rank: u32, given: &Result<Given, Untaken>)
    requires { rank < length tickets.old.items }
    ensures ok { IfOk given.now (λ given.
        tickets.new.items ≡ tickets_after (took_of given) rank tickets.old.items) }
    ensures err { OnErr given.now (tickets.new.items ≡ tickets.old.items) }
{
    if let Ok(Given::Node(parcel)) = given {
        tickets[rank as usize] = parcel.ticket();
    }
}
