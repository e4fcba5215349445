use crate::slot::{Slot, Span};

/// What a change replaced, so that the slot before the change is known.
#[derive(Drop)]
pub struct Undo {
    /// The slot that was changed.
    pub slot: Slot,
    /// Its state before, as far as the change replaced it.
    pub kept: Kept,
}

/// What a change took from a slot.
#[derive(Drop)]
pub enum Kept {
    /// A write, also a failed one: the bytes in its place, and the larger length.
    Bytes {
        at: u64,
        len: u64,
        over: Vec<u8>,
        longest: u64,
    },
    /// A sync: what was pending.
    Pending {
        shortest: u64,
        longest: u64,
        loose: Vec<Span>,
    },
}
