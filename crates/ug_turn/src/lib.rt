//! A lock by turns round one value, which shows its history. A thread that needs the value enters
//! the entry mutex, draws a number, takes the value when it is served, and passes the turn on. The
//! history exists in proofs only: each seat has seen a prefix of it, and the entries of each pass
//! are the pass's own calls, each once. Beside the lock is a cutoff, which only falls and is read
//! without a turn.
#![tactic(auto)]

mod closing;
mod entry_mutex;
mod held;
mod lasting;
mod notes;
mod opening;
mod plays;
mod reading;
mod rule;
mod seat;
mod steps;
mod taking;
mod turn;
mod view;

pub use lasting::Lasting;
pub use seat::{Seat, SeatOf};
pub use turn::Turn;
pub use view::{Ended, View};
