//! The book: the state of a coordinator for N ranks, with pool, ranks and incumbent. It receives
//! reports, decides, queues orders and answers. Depends on ug_rules, which says what each event
//! does, and on ug_stock, which executes it. Each call does exactly what its rule says. Whatever is
//! received, no better point is lost, with one assumption on one report: a Done is true of its
//! ticket's box.
#![tactic(auto)]

mod best;
mod book;
mod current;
mod decide;
mod done;
mod floors;
mod hand;
mod hear;
mod held;
mod incumbent;
mod joining;
mod note;
mod opening;
mod origin;
mod reads;
mod report;
mod solution;
mod start;
mod working;

pub use best::Best;
pub use book::Book;
pub use current::CurrentWork;
pub use opening::{Boxes, Opening};
pub use reads::Answered;
pub use ug_stock::Unfinished;
