//! A worker whose coordinator is at the other end of a link. It depends on ug_worker for what a
//! worker does, on ug_stream and ug_records for what comes over a link. `serve` receives a problem,
//! and searches each box that is ordered until the end is: for all bytes that may come, what it
//! sends is what such a worker sends, byte for byte. `Server` is that worker moved step by step,
//! which does not wait. The laws: workers are honest, and what is received from a rank at which a
//! worker is, in whatever pieces, is what a worker says that receives what it was sent.
#![tactic(auto)]

mod kept;
mod laws;
mod link_seat;
mod served;
mod server;
mod serving;
mod telling;
mod wire;

pub use laws::{
    services_end_in_one_way, traces_are_transcripts, workers_are_heard, workers_are_honest,
};
pub use served::Served;
pub use server::{Moved, Post, Progress, Server};
pub use serving::{Service, serve};
pub use wire::Wire;
