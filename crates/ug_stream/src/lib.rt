//! Messages put together from the pieces in which a stream brings their frames.
//! It depends on ug_frames. An `Assembler` is fed with bytes as they come, and gives the messages
//! whose frames are whole, one after another: orders at a solver, reports at a coordinator.
//! What it gives follows from the joined bytes alone, whatever the pieces; bytes that are no frame
//! are final. Its memory follows the bytes that wait, and never a length that is only reported.
#![tactic(auto)]

mod assembler;
mod framed;
mod laws;
mod next;

pub use assembler::Assembler;
pub use framed::Framed;
pub use laws::streams_are_read_in_one_way;
pub use next::Next;
