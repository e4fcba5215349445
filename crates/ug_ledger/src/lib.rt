//! The theory of the coordinator: a ledger of held nodes and current tickets, and the laws of what
//! happens to it. Depends on ug_nodes, ug_problem, ug_rows and ug_lists. specs/Sound.antt says in
//! six parts when a ledger is sound, specs/Moves.antt what an event does. The laws: each event
//! keeps the six parts, with one assumption, when a node is done; the primitive nodes of a sound
//! ledger are Covered; if it holds nothing, its answer is right.
#![tactic(auto)]

mod ends;
mod facts;
mod ledgers;
mod sound;

pub use ends::{begins_covered, covered_to_the_end};
pub use facts::{
    names_tell_nodes, numbers_begin_at_one, open_nodes_are_leaves, sound_in_two_halves,
};
pub use ledgers::{less_is_a_ledger, more_is_a_ledger};
pub use sound::{moves_keep_sound, true_done_is_searched};
