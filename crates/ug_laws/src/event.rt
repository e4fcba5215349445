use ug_frames::Report;

/// What may happen next.
#[derive(Drop)]
pub enum Event {
    /// A solver sends a report: it is the last of those that were sent.
    Send { report: Report },
    /// The report at this place among those sent, of which 0 is the earliest, is received from a
    /// rank, for the first time or again. One that is never received was lost.
    Hear { place: usize, rank: u32 },
    /// A rank joins.
    Join { rank: u32 },
    /// A rank is taken for dead, rightly or not.
    Gone { rank: u32 },
    /// The coordinator decides, as far as memory goes; how far is recorded.
    Decide,
    /// The first queued order is sent, and leaves the queue. Nothing happens if none is queued.
    Tell,
}
