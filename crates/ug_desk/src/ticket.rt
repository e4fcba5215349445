ghost use Rattle.std.specs.Prelude.{◌≡◌, ◌<◌, ◌↔◌, length, IsTrue};
ghost use Rattle.ug_desk.specs.Dones.{IsOfTicket, IsTaskOf};

use crate::area::is_area_by;
use ug_base::Task;
use ug_book::Book;
use ug_nodes::{Node, Ticket};
use ug_problem::Problem;

/// Whether a task of the book's problem is of the current ticket of a rank: ticket and whole box
/// are the book's. It takes no memory, and looks at no row.
pub fn is_of_ticket(book: &Book, rank: u32, task: &Task) -> bool
    requires here { rank < length book.now.ranks }
    requires problem { task.now.problem ≡ book.now.problem }
    ensures { IsTrue result ↔ IsOfTicket book.now rank task.now }
{
    match book.current(rank) {
        Some(work) => is_task_of(book.problem().problem(), work.ticket, work.node, task),
        None => false,
    }
}

// Whether a task of this problem is of the node that was given under this ticket.
fn is_task_of(problem: &Problem, ticket: Ticket, node: &Node, task: &Task) -> bool
    requires { task.now.problem ≡ problem.now }
    ensures { IsTrue result ↔ IsTaskOf problem.now ticket node.now task.now }
{
    task.ticket() == ticket && is_area_by(problem.root(), &node.changes, task.whole())
}
