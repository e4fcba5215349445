//! Reads the words of the command line as a plan: which command, on what, with which settings.
//! Depends on clap, whose definition of a parse it uses for what a command line is. `read_words`
//! returns the plan that the words ask for, with defaults filled in. It refuses exactly if they ask
//! for none, or if the high watermark in force is below the low one. Numbers are decimal digits
//! without sign or leading zero, each within its range.
#![tactic(auto)]

mod given;
mod laws;
mod number;
mod options;
mod plan;
mod reading;
mod settings;
mod usage;

pub use laws::{crossed_is_not_taken, words_tell_the_needs};
pub use plan::{Asked, Gen, Limits, Mode, Plan, Restart, Show, Solve, Solvers, Worker};
pub use reading::read_words;
pub use usage::Usage;
