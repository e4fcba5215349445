//! Single fields of bytes, as records, images and messages have them: numbers, names, flags. It
//! depends on ug_lines for the bytes of a word. Each field has a spelling in specs/, writers, which
//! put it at the end of a `Line` or of a buffer with room for it, and a reader, which gives it with
//! the bytes behind it, or a `Fault` that counts the bytes left from it on. A reader gives what was
//! spelled, of other bytes nothing, and never more than is there.
#![tactic(auto)]

mod buffer;
mod fault;
mod laws;
mod line;
mod names;
mod numbers;
mod optional;

pub use buffer::{put_bound, put_byte, put_bytes, put_count, put_long, put_number, put_optional};
pub use fault::Fault;
pub use laws::fields_are_read;
pub use line::Line;
pub use names::name_at;
pub use numbers::{
    amount_at, bound_at, count_at, long_at, number_at, signed_at, small_at, unsigned_at,
};
pub use optional::optional_at;
