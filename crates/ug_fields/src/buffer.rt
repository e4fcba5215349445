ghost use Rattle.std.specs.Prelude.{◌≡◌, ◌≤◌, ◌+◌, [], ◌∷◌, ◌++◌, length, vec_len, vec_capacity};
ghost use Rattle.ug_fields.specs.Spelling.{count_field, bound_field, long_field, number_field, optional_field};

use crate::line::{bound_bytes, count_bytes, long_bytes, number_bytes};

/// Puts bytes at the end of a buffer that has room for them.
pub fn put_bytes(buffer: &mut Vec<u8>, bytes: &[u8])
    requires { vec_len buffer.old + length bytes.now ≤ vec_capacity buffer.old }
    ensures bytes { buffer.new.items ≡ buffer.old.items ++ bytes.now }
    ensures long { vec_len buffer.new ≡ vec_len buffer.old + length bytes.now }
    ensures room { vec_capacity buffer.old ≤ vec_capacity buffer.new }
{
    if buffer.extend_from_slice(bytes).is_err() {
        unreachable!();
    }
}

/// A byte.
pub fn put_byte(buffer: &mut Vec<u8>, n: u8)
    requires { vec_len buffer.old + 1 ≤ vec_capacity buffer.old }
    ensures bytes { buffer.new.items ≡ buffer.old.items ++ n ∷ [] }
    ensures long { vec_len buffer.new ≡ vec_len buffer.old + 1 }
    ensures room { vec_capacity buffer.old ≤ vec_capacity buffer.new }
{
    buffer.push_reserved(n);
}

/// A number in four bytes.
pub fn put_count(buffer: &mut Vec<u8>, n: u32)
    requires { vec_len buffer.old + 4 ≤ vec_capacity buffer.old }
    ensures bytes { buffer.new.items ≡ buffer.old.items ++ count_field n }
    ensures long { vec_len buffer.new ≡ vec_len buffer.old + 4 }
    ensures room { vec_capacity buffer.old ≤ vec_capacity buffer.new }
{
    put_bytes(buffer, &count_bytes(n));
}

/// A signed number in four bytes.
pub fn put_bound(buffer: &mut Vec<u8>, n: i32)
    requires { vec_len buffer.old + 4 ≤ vec_capacity buffer.old }
    ensures bytes { buffer.new.items ≡ buffer.old.items ++ bound_field n }
    ensures long { vec_len buffer.new ≡ vec_len buffer.old + 4 }
    ensures room { vec_capacity buffer.old ≤ vec_capacity buffer.new }
{
    put_bytes(buffer, &bound_bytes(n));
}

/// A number in eight bytes.
pub fn put_long(buffer: &mut Vec<u8>, n: u64)
    requires { vec_len buffer.old + 8 ≤ vec_capacity buffer.old }
    ensures bytes { buffer.new.items ≡ buffer.old.items ++ long_field n }
    ensures long { vec_len buffer.new ≡ vec_len buffer.old + 8 }
    ensures room { vec_capacity buffer.old ≤ vec_capacity buffer.new }
{
    put_bytes(buffer, &long_bytes(n));
}

/// A signed number in sixteen bytes.
pub fn put_number(buffer: &mut Vec<u8>, n: i128)
    requires { vec_len buffer.old + 16 ≤ vec_capacity buffer.old }
    ensures bytes { buffer.new.items ≡ buffer.old.items ++ number_field n }
    ensures long { vec_len buffer.new ≡ vec_len buffer.old + 16 }
    ensures room { vec_capacity buffer.old ≤ vec_capacity buffer.new }
{
    put_bytes(buffer, &number_bytes(n));
}

/// A number or none: 0 where there is none, or 1 and the number.
#[tactic(auto, using(crate::proofs::Simple::number_long))]
pub fn put_optional(buffer: &mut Vec<u8>, number: Option<i128>)
    requires { vec_len buffer.old + length (optional_field number) ≤ vec_capacity buffer.old }
    ensures bytes { buffer.new.items ≡ buffer.old.items ++ optional_field number }
    ensures long { vec_len buffer.new ≡ vec_len buffer.old + length (optional_field number) }
    ensures room { vec_capacity buffer.old ≤ vec_capacity buffer.new }
{
    match number {
        None => put_byte(buffer, 0),
        Some(number) => {
            put_byte(buffer, 1);
            put_number(buffer, number);
        }
    }
}
