//! A desk: one book that threads share in turns, each through a pass that speaks for one rank.
//! Depends on ug_book, on ug_turn for the lock, on ug_worker for tasks and on ug_snapshot for
//! images. The calls of `Locked`, the value behind the lock, do exactly what the rules of the book
//! say. There is one history of calls: each call of a pass extends all that the pass had seen, ends
//! with the call, and has the pass's own calls, each once. The type of a task shows that its Done
//! is true.
#![tactic(auto)]

mod answer;
mod area;
mod calls;
mod closing;
mod decide;
mod desk;
mod done;
mod entry;
mod given;
mod hand;
mod locked;
mod locked_book;
mod opening;
mod parcel;
mod pass;
mod passes;
mod state;
mod take;
mod ticket;
mod tickets;
mod waiting;
mod wakeup;
mod word;

pub use desk::Desk;
pub use entry::{Entry, Said};
pub use given::Given;
pub use locked::Locked;
pub use locked_book::LockedBook;
pub use parcel::Parcel;
pub use pass::Pass;
