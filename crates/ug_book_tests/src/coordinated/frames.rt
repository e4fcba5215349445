//! The bytes between a coordinator and a rank that solves for the least value of one column, from 2
//! to 9, which is 2.

/// The order that comes first: gap 0; one column x from 2 to 9, no row, and x minimised.
pub const SETUP: &[u8] = b"\0\0\0\x4d\x01\0\0\0\0\0\0\0\0\0\0\0\0\0\0\0\0\
    \0\0\0\x01\x01x\0\0\0\x02\0\0\0\x09\0\0\0\0\
    \0\0\0\0\0\0\0\0\0\0\0\0\0\0\0\0\0\0\0\0\0\x01\
    \0\0\0\0\0\0\0\0\0\0\0\0\0\0\0\0\0\0\0\x01";

/// A rank is ready.
pub const READY: &[u8] = b"\0\0\0\x01\x11";

/// It is ready, reports the point 2 under its ticket, and that its task is done under this cutoff,
/// with no hand.
pub const ALL: &[u8] = b"\0\0\0\x01\x11\
    \0\0\0\x19\x12\0\0\0\0\0\0\0\x01\0\0\0\0\0\0\0\x01\0\0\0\x01\0\0\0\x02\
    \0\0\0\x2a\x15\0\0\0\0\0\0\0\x01\0\0\0\0\0\0\0\x01\x01\
    \0\0\0\0\0\0\0\0\0\0\0\0\0\0\0\x02\0\0\0\0\0\0\0\0";

/// The same under the second ticket.
pub const SECOND: &[u8] = b"\0\0\0\x01\x11\
    \0\0\0\x19\x12\0\0\0\0\0\0\0\x01\0\0\0\0\0\0\0\x02\0\0\0\x01\0\0\0\x02\
    \0\0\0\x2a\x15\0\0\0\0\0\0\0\x01\0\0\0\0\0\0\0\x02\x01\
    \0\0\0\0\0\0\0\0\0\0\0\0\0\0\0\x02\0\0\0\0\0\0\0\0";

/// Work on the whole, the cutoff of the point, and the end.
pub const WHOLE: &[u8] = b"\0\0\0\x18\x02\0\0\0\0\0\0\0\x01\0\0\0\0\0\0\0\x01\0\0\0\0\0\0\0\
    \0\0\0\x11\x03\0\0\0\0\0\0\0\0\0\0\0\0\0\0\0\x02\
    \0\0\0\x01\x08";

/// The same under the second ticket.
pub const WHOLE_AGAIN: &[u8] = b"\0\0\0\x18\x02\0\0\0\0\0\0\0\x01\0\0\0\0\0\0\0\x02\0\0\0\0\0\0\0\
    \0\0\0\x11\x03\0\0\0\0\0\0\0\0\0\0\0\0\0\0\0\x02\
    \0\0\0\x01\x08";

/// Work on the whole.
pub const WORK: &[u8] = b"\0\0\0\x18\x02\0\0\0\0\0\0\0\x01\0\0\0\0\0\0\0\x01\0\0\0\0\0\0\0";

/// The end.
pub const END: &[u8] = b"\0\0\0\x01\x08";
