//! Cuts an MPS text into lines and each line into words, and says what they are. It depends on
//! nothing but std. `cut` and `content` give the lines; `words_of` the first words of one;
//! `shape_of` what the words of a data line are by their section and number; `section_of` and the
//! calls beside it what a single word names. Each is its definition in specs/, word by word. Words
//! are slices of the line.
#![tactic(auto)]

mod kinds;
mod lines;
mod section;
mod shape;
mod words;

pub use kinds::{
    BoundKind, RowKind, bound_kind_of, is_in_any_case, is_semi_continuous, marker_of, row_kind_of,
    sense_of,
};
pub use lines::{content, cut, line_feed};
pub use section::{END_WORD, Section, section_of};
pub use shape::{LineShape, NamedWord, NamedWords, shape_of};
pub use words::{
    are_short, is_blank, is_comment, is_data, is_legible, is_line_byte, is_word_byte, words_of,
};
