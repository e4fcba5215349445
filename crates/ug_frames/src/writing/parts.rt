ghost use Rattle.std.specs.Prelude.{◌≡◌, ◌≤◌, ◌+◌, ◌*◌, ◌^◌, [], ◌∷◌, ◌++◌, length, vec_len, vec_capacity, take};
ghost use Rattle.std.specs.List.{flat_map};
ghost use Rattle.ug_fields.specs.Spelling.{bound_field};
ghost use Rattle.ug_frames.specs.Spelling.{ticket_fields, params_field, race_field, change_fields, changes_fields, point_fields};

use ug_branch::Params;
use ug_fields::{put_bound, put_byte, put_count, put_long};
use ug_nodes::{Change, Changes, Ticket};
use ug_rows::Point;

/// A ticket.
#[tactic(auto, unfolding(crate::specs::Spelling::ticket_fields))]
pub fn put_ticket(buffer: &mut Vec<u8>, ticket: Ticket)
    requires { vec_len buffer.old + 16 ≤ vec_capacity buffer.old }
    ensures bytes { buffer.new.items ≡ buffer.old.items ++ ticket_fields ticket }
    ensures long { vec_len buffer.new ≡ vec_len buffer.old + 16 }
    ensures room { vec_capacity buffer.old ≤ vec_capacity buffer.new }
{
    put_long(buffer, ticket.run);
    put_long(buffer, ticket.number);
}

/// The params, and whether others have the same box.
pub fn put_ways(buffer: &mut Vec<u8>, params: Params, race: bool)
    requires { vec_len buffer.old + 2 ≤ vec_capacity buffer.old }
    ensures bytes { buffer.new.items ≡ buffer.old.items ++ params_field params ++ race_field race }
    ensures long { vec_len buffer.new ≡ vec_len buffer.old + 2 }
    ensures room { vec_capacity buffer.old ≤ vec_capacity buffer.new }
{
    put_byte(buffer, params.number());
    put_byte(buffer, if race { 1 } else { 0 });
}

// A change.
#[tactic(auto, unfolding(crate::specs::Spelling::change_fields))]
fn put_change(buffer: &mut Vec<u8>, change: Change)
    requires { vec_len buffer.old + 12 ≤ vec_capacity buffer.old }
    ensures bytes { buffer.new.items ≡ buffer.old.items ++ change_fields change }
    ensures long { vec_len buffer.new ≡ vec_len buffer.old + 12 }
    ensures room { vec_capacity buffer.old ≤ vec_capacity buffer.new }
{
    put_count(buffer, change.column);
    put_bound(buffer, change.low);
    put_bound(buffer, change.high);
}

// Each of some changes.
fn put_each(buffer: &mut Vec<u8>, changes: &[Change])
    requires { vec_len buffer.old + 12 * length changes.now ≤ vec_capacity buffer.old }
    ensures { buffer.new.items ≡ buffer.old.items ++ flat_map change_fields changes.now }
{
    for change in changes {
        put_change(buffer, *change);
    }
}

/// Changes: how many there are, and each.
#[tactic(auto, unfolding(crate::specs::Spelling::changes_fields))]
pub fn put_changes(buffer: &mut Vec<u8>, changes: &Changes)
    requires few { length changes.now ≤ 10 ^ 4 }
    requires room { vec_len buffer.old + 4 + 12 * length changes.now ≤ vec_capacity buffer.old }
    ensures { buffer.new.items ≡ buffer.old.items ++ changes_fields changes.now }
{
    put_count(buffer, changes.as_slice().len() as u32);
    put_each(buffer, changes.as_slice());
}

// Each of some values.
fn put_values(buffer: &mut Vec<u8>, values: &[i32])
    requires { vec_len buffer.old + 4 * length values.now ≤ vec_capacity buffer.old }
    ensures { buffer.new.items ≡ buffer.old.items ++ flat_map bound_field values.now }
{
    for value in values {
        put_bound(buffer, *value);
    }
}

/// A point: how many values it has, and each.
#[tactic(auto, unfolding(crate::specs::Spelling::point_fields))]
pub fn put_point(buffer: &mut Vec<u8>, point: &Point)
    requires few { length point.now ≤ 10 ^ 4 }
    requires room { vec_len buffer.old + 4 + 4 * length point.now ≤ vec_capacity buffer.old }
    ensures { buffer.new.items ≡ buffer.old.items ++ point_fields point.now }
{
    put_count(buffer, point.as_slice().len() as u32);
    put_values(buffer, point.as_slice());
}
