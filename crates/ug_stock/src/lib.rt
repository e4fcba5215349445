//! Executes what a book's events do to its pool, ranks, race and queue. Depends on ug_rules for
//! what each event does, and on ug_ranks and ug_pool. The loss of a rank (`die`) takes no memory
//! and leaves the reserve that the next one needs; `take_hand` takes a hand; `decide` makes the
//! parts of a decision, `announce`, `end_race`, `give_out` and `collect`, and if memory runs out
//! says how many steps stand. Everything is exactly what the rules say.
#![tactic(auto)]

mod announcing;
mod asking;
mod assigning;
mod calling;
mod choosing;
mod collecting;
mod counting;
mod death;
mod deciding;
mod ending;
mod firsts;
mod freeing;
mod frontier;
mod giving;
mod judging;
mod laws;
mod members;
mod notice_places;
mod queue;
mod racer_left;
mod racing;
mod reports;
mod run;
mod taking;
mod telling;
mod terms;
mod turns;
mod unfinished;
mod wanting;
mod winning;

pub use choosing::winner;
pub use freeing::free_racers;
pub use frontier::Frontier;
pub use judging::judge;
pub use laws::hands_are_due;
pub use queue::Queue;
pub use run::Run;
pub use terms::{Stopped, Terms};
pub use unfinished::Unfinished;
pub use wanting::wanted;
