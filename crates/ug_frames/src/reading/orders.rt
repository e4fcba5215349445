ghost use Rattle.std.specs.Prelude.{◌≡◌};
ghost use Rattle.ug_fields.specs.Reading.{Gives};
ghost use Rattle.ug_frames.specs.OrderReading.{setup_at, work_at, incumbent_at, collect_at, ticket_order, ticket_order_at, tagged_at, order_in};

use crate::order::Order;
use crate::reading::changes::changes_at;
use crate::reading::parts::{params_at, positive_at, race_at, ticket_at};
use crate::reading::{GREATEST_GAP, GREATEST_VALUE};
use std::alloc::Global;
use ug_fields::{Fault, amount_at, number_at, optional_at, small_at};
use ug_lists::Bytes;
use ug_nodes::Ticket;

// The fields of a Setup: all that is behind the gap is its record.
#[tactic(auto, unfolding(crate::specs::OrderReading::setup_at))]
fn setup_at(alloc: Global, bytes: &[u8]) -> Result<(Order, &[u8]), Fault>
    ensures { Gives (λ x. (x.0, x.1.now)) result (setup_at bytes.now) }
{
    let (gap, rest) = amount_at(bytes, GREATEST_GAP)?;
    let record = Bytes::from_slice(alloc, rest)?;
    Ok((Order::Setup { gap, record }, &[]))
}

// The fields of a Work.
#[tactic(auto, unfolding(crate::specs::OrderReading::work_at))]
fn work_at(alloc: Global, bytes: &[u8]) -> Result<(Order, &[u8]), Fault>
    ensures { Gives (λ x. (x.0, x.1.now)) result (work_at bytes.now) }
{
    let (ticket, rest) = ticket_at(bytes)?;
    let (params, rest) = params_at(rest)?;
    let (race, rest) = race_at(rest)?;
    let (cutoff, rest) = optional_at(rest, GREATEST_VALUE)?;
    let (changes, rest) = changes_at(alloc, rest)?;
    let order = Order::Work {
        ticket,
        params,
        race,
        cutoff,
        changes,
    };
    Ok((order, rest))
}

// The field of an Incumbent.
#[tactic(auto, unfolding(crate::specs::OrderReading::incumbent_at))]
fn incumbent_at(bytes: &[u8]) -> Result<(Order, &[u8]), Fault>
    ensures { Gives (λ x. (x.0, x.1.now)) result (incumbent_at bytes.now) }
{
    let (cutoff, rest) = number_at(bytes, GREATEST_VALUE)?;
    Ok((Order::Incumbent { cutoff }, rest))
}

// The fields of a CollectIn.
#[tactic(auto, unfolding(crate::specs::OrderReading::collect_at))]
fn collect_at(bytes: &[u8]) -> Result<(Order, &[u8]), Fault>
    ensures { Gives (λ x. (x.0, x.1.now)) result (collect_at bytes.now) }
{
    let (ticket, rest) = ticket_at(bytes)?;
    let (count, rest) = positive_at(rest)?;
    Ok((Order::CollectIn { ticket, count }, rest))
}

// The order with this tag that has its ticket alone.
fn ticket_order(tag: u8, ticket: Ticket) -> Order
    ensures { result ≡ ticket_order tag ticket }
{
    match tag {
        5 => Order::CollectOut { ticket },
        6 => Order::Winner { ticket },
        _ => Order::Stop { ticket },
    }
}

// The field of an order that has its ticket alone.
#[tactic(auto, unfolding(crate::specs::OrderReading::ticket_order_at))]
fn ticket_order_at(tag: u8, bytes: &[u8]) -> Result<(Order, &[u8]), Fault>
    ensures { Gives (λ x. (x.0, x.1.now)) result (ticket_order_at tag bytes.now) }
{
    let (ticket, rest) = ticket_at(bytes)?;
    Ok((ticket_order(tag, ticket), rest))
}

// The fields of the order with this tag.
#[tactic(auto, unfolding(crate::specs::OrderReading::tagged_at))]
fn tagged_at(alloc: Global, tag: u8, bytes: &[u8]) -> Result<(Order, &[u8]), Fault>
    ensures { Gives (λ x. (x.0, x.1.now)) result (tagged_at tag bytes.now) }
{
    match tag {
        1 => setup_at(alloc, bytes),
        2 => work_at(alloc, bytes),
        3 => incumbent_at(bytes),
        4 => collect_at(bytes),
        8 => Ok((Order::End, bytes)),
        _ => ticket_order_at(tag, bytes),
    }
}

/// The order of these bytes, which a frame has behind its length: its tag and its fields.
#[tactic(auto, unfolding(crate::specs::OrderReading::order_in, crate::specs::Reading::alone))]
pub fn order_in(alloc: Global, bytes: &[u8]) -> Result<Order, Fault>
    ensures { Gives (λ x. x) result (order_in bytes.now) }
{
    let (tag, rest) = small_at(bytes, 1, 8)?;
    let (order, rest) = tagged_at(alloc, tag, rest)?;
    if !rest.is_empty() {
        drop(order);
        return Err(Fault::Bad(rest.len()));
    }
    Ok(order)
}
