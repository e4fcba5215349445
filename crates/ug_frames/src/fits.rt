ghost use Rattle.ug_fields.specs.Readers.{IsBytes};
ghost use Rattle.ug_frames.specs.Fits.{FitsTicket, FitsOrder, FitsReport};

use crate::order::Order;
use crate::report::Report;
use ug_nodes::Ticket;

// The numbers of a ticket are of its type.
fn ticket_fits(_ticket: Ticket)
    ensures { FitsTicket _ticket }
{}

// Bytes are bytes.
fn bytes_fit(_bytes: &[u8])
    ensures { IsBytes _bytes.now }
{}

/// The numbers of an order are of their types.
pub fn order_fits(order: &Order)
    ensures { FitsOrder order.now }
{
    match order {
        Order::Setup { record, .. } => bytes_fit(record.as_slice()),
        Order::Work { ticket, .. } => ticket_fits(*ticket),
        Order::CollectIn { ticket, count } => {
            let _count = *count;
            ticket_fits(*ticket);
        }
        Order::CollectOut { ticket } => ticket_fits(*ticket),
        Order::Winner { ticket } => ticket_fits(*ticket),
        Order::Stop { ticket } => ticket_fits(*ticket),
        Order::Incumbent { .. } | Order::End => (),
    }
}

/// The numbers of a report are of their types.
pub fn report_fits(report: &Report)
    ensures { FitsReport report.now }
{
    match report {
        Report::Solution { ticket, .. } => ticket_fits(*ticket),
        Report::Hand { ticket, number, .. } => {
            let _number = *number;
            ticket_fits(*ticket);
        }
        Report::State { ticket, open, .. } => {
            let _open = *open;
            ticket_fits(*ticket);
        }
        Report::Done { ticket, count, .. } => {
            let _count = *count;
            ticket_fits(*ticket);
        }
        Report::Ready | Report::Ended => (),
    }
}
