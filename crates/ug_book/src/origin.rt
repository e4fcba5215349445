use ug_nodes::Ticket;

/// Which rank a report comes from, and under which ticket.
#[derive(Clone, Copy)]
pub struct Origin {
    pub rank: u32,
    pub ticket: Ticket,
}
