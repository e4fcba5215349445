//! What a coordinator and a solver in another process send each other, and its bytes.
//! It depends on ug_fields for single fields, and on ug_lists, ug_rows, ug_problem, ug_nodes and
//! ug_branch for what the messages say.
//! `Order` and `Report` are plain data; `ticket` says of which assignment one speaks, and which it
//! is that speaks of none. `IsOrder` and `IsReport`, in specs/, say which values a frame can carry,
//! and `spelled` which bytes the frame is. `encode_order` and `encode_report` put a frame at the
//! end of a buffer; `decode_order` and `decode_report` report of any bytes whether a frame is at
//! their front, and whose.
#![tactic(auto)]

mod decoded;
mod decoding;
mod encoding;
mod fits;
mod front;
mod laws;
mod order;
mod reading;
mod report;
mod writing;

pub use decoded::Decoded;
pub use decoding::{decode_order, decode_report};
pub use encoding::{encode_order, encode_report};
pub use laws::frames_are_apart;
pub use order::Order;
pub use report::{Ending, Report};
