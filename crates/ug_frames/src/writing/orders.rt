ghost use Rattle.std.specs.Prelude.{◌≡◌, ◌≤◌, ◌+◌, ◌∷◌, ◌++◌, length, vec_len, vec_capacity};
ghost use Rattle.ug_frames.specs.Orders.{IsOrder};
ghost use Rattle.ug_frames.specs.OrderFrames.{tag_of, fields_of};

use crate::order::Order;
use crate::writing::lengths::{changes_length, optional_length};
use crate::writing::parts::{put_changes, put_ticket, put_ways};
use ug_fields::{put_bytes, put_count, put_number, put_optional};

/// What says which order it is.
pub fn tag(order: &Order) -> u8
    ensures { result ≡ tag_of order.now }
{
    match order {
        Order::Setup { .. } => 1,
        Order::Work { .. } => 2,
        Order::Incumbent { .. } => 3,
        Order::CollectIn { .. } => 4,
        Order::CollectOut { .. } => 5,
        Order::Winner { .. } => 6,
        Order::Stop { .. } => 7,
        Order::End => 8,
    }
}

/// How many bytes the fields behind the tag have.
#[tactic(auto, unfolding(crate::specs::OrderFrames::fields_of))]
pub fn fields_length(order: &Order) -> u32
    requires { IsOrder order.now }
    ensures long { result ≡ length (fields_of order.now) }
    ensures short { result ≤ 67108859 }
{
    match order {
        Order::Setup { record, .. } => 16 + record.len() as u32,
        Order::Work {
            cutoff,
            changes,
            ..
        } => { 18 + optional_length(*cutoff) + changes_length(changes) }
        Order::Incumbent { .. } => 16,
        Order::CollectIn { .. } => 20,
        Order::CollectOut { .. } => 16,
        Order::Winner { .. } => 16,
        Order::Stop { .. } => 16,
        Order::End => 0,
    }
}

/// The fields behind the tag.
#[tactic(auto, unfolding(crate::specs::OrderFrames::fields_of))]
pub fn put_fields(buffer: &mut Vec<u8>, order: &Order)
    requires order { IsOrder order.now }
    requires room { vec_len buffer.old + length (fields_of order.now) ≤ vec_capacity buffer.old }
    ensures { buffer.new.items ≡ buffer.old.items ++ fields_of order.now }
{
    match order {
        Order::Setup { gap, record } => {
            put_number(buffer, *gap);
            put_bytes(buffer, record.as_slice());
        }
        Order::Work {
            ticket,
            params,
            race,
            cutoff,
            changes,
        } => {
            put_ticket(buffer, *ticket);
            put_ways(buffer, *params, *race);
            put_optional(buffer, *cutoff);
            put_changes(buffer, changes);
        }
        Order::Incumbent { cutoff } => put_number(buffer, *cutoff),
        Order::CollectIn { ticket, count } => {
            put_ticket(buffer, *ticket);
            put_count(buffer, *count);
        }
        Order::CollectOut { ticket } => put_ticket(buffer, *ticket),
        Order::Winner { ticket } => put_ticket(buffer, *ticket),
        Order::Stop { ticket } => put_ticket(buffer, *ticket),
        Order::End => (),
    }
}
