use std::io;
use ug_disk::Slot;

/// One value for each slot, stored by the first call that needs it.
#[derive(Drop)]
pub struct Kept<T: Drop> {
    zero: Option<T>,
    one: Option<T>,
}

impl<T: Drop> Kept<T> {
    /// Returns the state with no value stored.
    pub fn new() -> Kept<T> {
        Kept {
            zero: None,
            one: None,
        }
    }

    /// Returns the value stored for the slot, if there is one.
    pub fn of(&self, slot: Slot) -> Option<&T> {
        match slot {
            Slot::Zero => self.zero.as_ref(),
            Slot::One => self.one.as_ref(),
        }
    }

    /// Stores a value for the slot and returns it, or returns the error and stores nothing.
    pub fn keep(&mut self, slot: Slot, got: io::Result<T>) -> io::Result<&T> {
        match slot {
            Slot::Zero => keep(&mut self.zero, got),
            Slot::One => keep(&mut self.one, got),
        }
    }
}

/// Stores a value in the place and returns it, or returns the error and stores nothing.
pub fn keep<T: Drop>(place: &mut Option<T>, got: io::Result<T>) -> io::Result<&T> {
    match got {
        Ok(value) => Ok(place.insert(value)),
        Err(error) => Err(error),
    }
}
