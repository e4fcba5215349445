/// How the service of a link ended.
#[derive(Clone, Copy, PartialEq, Eq)]
pub enum Served {
    /// The end was ordered, and Ended was sent.
    Ended,
    /// A call of the link failed, or it ended before the end was ordered.
    LinkFault,
    /// The bytes from this place on, counted over all that were received, are no frame of an order,
    /// or that of one that was not due.
    BadFrame { at: u64 },
    /// Memory ran out.
    Memory,
}
