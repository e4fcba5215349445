use std::collections::LinkedList;

/// What a seat knows. No value of it is made.
pub struct View<O, E> {
    /// 0 of a note, 1 of a pass, 2 of the seat that makes passes.
    pub role: u64,
    /// How many passes are with the seat, those that have ended among them.
    pub parts: u64,
    /// How many numbers are out.
    pub waits: u64,
    /// The number drawn.
    pub number: u64,
    /// 0 before the turn, 1 in it, 2 with the value out, 3 with it home again.
    pub step: u64,
    /// The number of the pass; the next one of the seat that makes passes.
    pub pass: u64,
    /// What the history begins with.
    pub opening: Option<O>,
    /// The beginning of the history that was seen.
    pub seen: LinkedList<E>,
    /// What a note has.
    pub told: LinkedList<E>,
    /// The pass's own calls.
    pub mine: LinkedList<E>,
    /// The least cutoff that is known.
    pub known: u64,
    /// The cutoff of the value that was taken out or put home.
    pub level: u64,
    /// The passes that have ended with the seat.
    pub ended: LinkedList<Ended<E>>,
}

/// What a pass knew that has ended. No value of it is made.
pub struct Ended<E> {
    /// The number of the pass.
    pub pass: u64,
    /// The beginning of the history that it had seen.
    pub seen: LinkedList<E>,
    /// Its own calls.
    pub mine: LinkedList<E>,
}
