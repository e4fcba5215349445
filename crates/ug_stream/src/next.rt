/// What comes next of a stream.
#[derive(Drop)]
pub enum Next<M> {
    /// A message.
    Message(M),
    /// Nothing, until more bytes come.
    NeedMore,
    /// Nothing ever again: the bytes from this place of the stream on are no frame of a message.
    BadFrame { at: u64 },
}
