ghost use Rattle.std.specs.Prelude.{◌≡◌, ◌<◌, length};
ghost use Rattle.ug_rules.specs.Books.{IsSoundBook};
ghost use Rattle.ug_book.specs.Views.{IsSameRun};
ghost use Rattle.ug_desk.specs.Reports.{HasHanded};

use std::alloc::Global;
use ug_book::Book;
use ug_frames::Report;
use ug_nodes::{Ticket, changes_of};
use ug_rows::IntBox;
use ug_rules::Heard;

/// A box that is handed under a ticket, and which of its hands it is.
#[derive(Clone, Copy)]
pub struct HandedBox<'a> {
    pub ticket: Ticket,
    pub number: u64,
    pub area: &'a IntBox,
}

/// A rank hands a box.
pub fn hand(alloc: Global, book: &mut Book, rank: u32, handed: HandedBox<'_>) -> Heard
    requires there { rank < length book.old.ranks }
    requires width { length handed.area.now ≡ length book.old.problem.columns }
    ensures handed { HasHanded rank handed.entry.ticket handed.entry.number
        handed.entry.area.now result book.old book.new }
    ensures same { IsSameRun book.old book.new }
    ensures sound { IsSoundBook book.old → IsSoundBook book.new }
{
    let Ok(changes) = changes_of(alloc, book.problem().problem().root(), handed.area) else {
        return Heard::Memory;
    };
    book.hear(
        rank,
        Report::Hand {
            ticket: handed.ticket,
            number: handed.number,
            changes,
        },
    )
}
