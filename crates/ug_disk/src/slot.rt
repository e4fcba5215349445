/// One of the two slots of a disk.
#[derive(Clone, Copy, Debug, PartialEq, Eq)]
pub enum Slot {
    Zero,
    One,
}

/// The places from `from` on and below `end`.
#[derive(Clone, Copy, PartialEq, Eq)]
pub struct Span {
    /// The first place.
    pub from: u64,
    /// The place behind the last.
    pub end: u64,
}

/// A crash may not leave the image that was given for this slot.
#[derive(Clone, Copy, Debug, PartialEq, Eq)]
pub struct NotAllowed {
    /// The slot.
    pub slot: Slot,
}
