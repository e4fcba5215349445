//! The rules of the coordinator: what each event does to the contents of a book, as functions on
//! lists. Depends on ug_ledger, and on the crates of a book's parts: ug_ranks, ug_pool and
//! ug_frames. `Settings`, `Heard` and `Told` are the book's plain types; specs/ has State (the
//! contents of a book), Hearing, Deaths, Winning (who wins a race), Asking, Deciding, and Books
//! (the invariant of every book, and when it is sound). The laws: both are preserved; a sound book
//! that holds nothing has a right answer.
#![tactic(auto)]

mod contender;
mod demand;
mod heard;
mod laws_of_deciding;
mod laws_of_hearing;
mod member;
mod settings;
mod told;

pub use contender::Contender;
pub use demand::Wanted;
pub use heard::Heard;
pub use laws_of_deciding::{
    answers_are_right, decided_is_settled, deciding_keeps_books, parts_keep_books,
};
pub use laws_of_hearing::{
    deaths_make_room, dones_keep_books, events_are_moves, events_keep_books, hearing_keeps_books,
    hearing_takes_no_room, other_events_are_none, stops_have_places,
};
pub use member::Member;
pub use settings::Settings;
pub use told::Told;
