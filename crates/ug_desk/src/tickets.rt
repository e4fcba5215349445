ghost use Rattle.std.specs.Prelude.{◌≡◌, replicate, IfOk};

use std::alloc::{AllocError, Global};
use ug_nodes::Ticket;

/// Returns a ticket for each pass.
pub fn tickets(alloc: Global, passes: u32, ticket: Ticket) -> Result<Vec<Ticket>, AllocError>
    ensures { IfOk result (λ tickets. tickets.items ≡ replicate passes ticket) }
{
    let mut tickets = Vec::with_capacity(alloc, passes as usize)?;
    for _ in 0..passes {
        tickets.push(ticket)?;
    }
    Ok(tickets)
}
