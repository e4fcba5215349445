ghost use Rattle.std.specs.Prelude.{◌≡◌, ◌≤◌, ◌+◌, [], ◌∷◌, ◌++◌, length, IfOk};
ghost use Rattle.ug_fields.specs.Spelling.{count_field, bound_field, long_field, number_field, name_field, optional_field};

use std::alloc::{AllocError, Global};
use std::marker::Model;

/// The longest line.
const ROOM: usize = 300;

/// A line of fields, of at most 300 bytes, for which there is room from the first on. So fields are
/// put to it without memory.
#[derive(Drop)]
pub struct Line {
    bytes: Vec<u8>,
}

impl Model for Line {
    ghost use Rattle.std.specs.Prelude.{List, ℕ, ◌≤◌};
    ghost use Rattle.std.specs.Vec.{vec_capacity};

    ghost Value = { List ℕ };

    ghost view = { λ line. line.bytes.items };

    ghost invariant = { λ line. 300 ≤ vec_capacity line.bytes };
}

impl Line {
    /// A line with no bytes.
    pub fn new(alloc: Global) -> Result<Line, AllocError>
        ensures { IfOk result (λ line. line ≡ []) }
    {
        let bytes = Vec::with_capacity(alloc, ROOM)?;
        Ok(Line { bytes })
    }

    pub fn as_slice(&self) -> &[u8]
        ensures { result.now ≡ self.now }
    {
        self.bytes.as_slice()
    }

    /// Takes all bytes away. The room stays.
    pub fn clear(&mut self)
        ensures { self.new ≡ [] }
    {
        self.bytes.clear();
    }

    // Adds bytes at the end, for which there is room.
    fn put(&mut self, bytes: &[u8])
        requires { length self.old + length bytes.now ≤ 300 }
        ensures bytes { self.new ≡ self.old ++ bytes.now }
        ensures long { length self.new ≡ length self.old + length bytes.now }
    {
        if self.bytes.extend_from_slice(bytes).is_err() {
            unreachable!();
        }
    }

    /// A byte.
    pub fn put_byte(&mut self, n: u8)
        requires { length self.old + 1 ≤ 300 }
        ensures bytes { self.new ≡ self.old ++ n ∷ [] }
        ensures long { length self.new ≡ length self.old + 1 }
    {
        self.put(&[n]);
    }

    /// A number in four bytes.
    pub fn put_count(&mut self, n: u32)
        requires { length self.old + 4 ≤ 300 }
        ensures bytes { self.new ≡ self.old ++ count_field n }
        ensures long { length self.new ≡ length self.old + 4 }
    {
        self.put(&count_bytes(n));
    }

    /// A signed number in four bytes.
    pub fn put_bound(&mut self, n: i32)
        requires { length self.old + 4 ≤ 300 }
        ensures bytes { self.new ≡ self.old ++ bound_field n }
        ensures long { length self.new ≡ length self.old + 4 }
    {
        self.put(&bound_bytes(n));
    }

    /// A number in eight bytes.
    pub fn put_long(&mut self, n: u64)
        requires { length self.old + 8 ≤ 300 }
        ensures bytes { self.new ≡ self.old ++ long_field n }
        ensures long { length self.new ≡ length self.old + 8 }
    {
        self.put(&long_bytes(n));
    }

    /// A signed number in sixteen bytes.
    pub fn put_number(&mut self, n: i128)
        requires { length self.old + 16 ≤ 300 }
        ensures bytes { self.new ≡ self.old ++ number_field n }
        ensures long { length self.new ≡ length self.old + 16 }
    {
        self.put(&number_bytes(n));
    }

    /// A name's length, and the name.
    pub fn put_name(&mut self, name: &[u8])
        requires short { length name.now ≤ 255 }
        requires room { length self.old + 256 ≤ 300 }
        ensures bytes { self.new ≡ self.old ++ name_field name.now }
        ensures long { length self.new ≡ length self.old + 1 + length name.now }
    {
        self.put_byte(name.len() as u8);
        self.put(name);
    }

    /// A number or none: 0 where there is none, or 1 and the number.
    pub fn put_optional(&mut self, number: Option<i128>)
        requires { length self.old + 17 ≤ 300 }
        ensures bytes { self.new ≡ self.old ++ optional_field number }
        ensures long { length self.new ≤ length self.old + 17 }
    {
        match number {
            None => self.put_byte(0),
            Some(number) => {
                self.put_byte(1);
                self.put_number(number);
            }
        }
    }
}

#[tactic(auto, unfolding(crate::specs::Spelling::count_field))]
pub fn count_bytes(n: u32) -> [u8; 4]
    ensures { result ≡ count_field n }
{
    n.to_be_bytes()
}

#[tactic(auto, unfolding(crate::specs::Spelling::bound_field))]
pub fn bound_bytes(n: i32) -> [u8; 4]
    ensures { result ≡ bound_field n }
{
    n.to_be_bytes()
}

#[tactic(auto, unfolding(crate::specs::Spelling::long_field))]
pub fn long_bytes(n: u64) -> [u8; 8]
    ensures { result ≡ long_field n }
{
    n.to_be_bytes()
}

#[tactic(auto, unfolding(crate::specs::Spelling::number_field))]
pub fn number_bytes(n: i128) -> [u8; 16]
    ensures { result ≡ number_field n }
{
    n.to_be_bytes()
}
