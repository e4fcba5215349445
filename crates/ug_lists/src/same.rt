//! Whether two values are the same, and two lists item by item. No call takes memory.

ghost use Rattle.std.specs.Prelude.{◌≡◌, ◌↔◌, IsTrue};

use crate::items::Items;

/// What can say whether another is the same.
pub trait Same {
    /// Whether another is the same.
    fn is(&self, other: &Self) -> bool
        ensures { IsTrue result ↔ (self.now ≡ other.now) };
}

impl Same for u8 {
    fn is(&self, other: &u8) -> bool {
        *self == *other
    }
}

impl Same for i32 {
    fn is(&self, other: &i32) -> bool {
        *self == *other
    }
}

impl<T: Same> Same for Option<T> {
    fn is(&self, other: &Option<T>) -> bool {
        match (self, other) {
            (None, None) => true,
            (Some(a), Some(b)) => a.is(b),
            _ => false,
        }
    }
}

impl<T: Same> Same for Items<T> {
    fn is(&self, other: &Items<T>) -> bool {
        are_same(self.as_slice(), other.as_slice())
    }
}

/// Whether two lists have the same items in the same order.
pub fn are_same<T: Same>(a: &[T], b: &[T]) -> bool
    ensures { IsTrue result ↔ (a.now ≡ b.now) }
{
    if a.len() != b.len() {
        return false;
    }
    for j in 0..a.len() {
        if !a[j].is(&b[j]) {
            return false;
        }
    }
    true
}
