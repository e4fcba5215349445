/// The result of reading the front of some bytes.
#[derive(Drop)]
pub enum Decoded<M> {
    /// A frame that is not all there yet.
    NeedMore,
    /// No frame of a message, whatever follows.
    Bad,
    /// The frame of a message, and how many bytes it has.
    Whole { message: M, used: usize },
}
