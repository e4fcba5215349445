ghost use Rattle.std.specs.Prelude.{◌≡◌, ◌&&◌, ◌∷◌, ℕ, List, nat_lt, not, map};
ghost use Rattle.std.specs.Option.{option_map};
ghost use Rattle.ug_lines.specs.Shaped.{shape_shaped};
ghost use Rattle.ug_mps.specs.Faults.{is_word_end, is_end_line, is_bounds, semi_continuous, bad_bound_kind, or_fault, shape_in};
ghost use Rattle.ug_mps.specs.Taking.{TakesLine, TakesWords, TakesData, AreWords, IsFirst, as_fault};

use crate::draft::Draft;
use crate::error::{bare_fault, fault_of};
use std::alloc::Global;
use ug_drafts::{Kind, MpsError};
use ug_lines::{
    END_WORD, LineShape, Section, are_short, bound_kind_of, is_blank, is_comment, is_data,
    is_legible, is_semi_continuous, shape_of, words_of,
};

/// The bytes that a file may have before its ENDATA line.
pub const LIMIT: usize = 268_435_456;

// This many words of a line decide what it is: if it has more than these, it is the same with any
// others behind them.
const MOST_WORDS: usize = 6;

// Whether nothing, or a blank, stands first.
fn is_word_end(bytes: &[u8]) -> bool
    ensures { result ≡ is_word_end bytes.now }
{
    match bytes.first() {
        Some(b) => is_blank(*b),
        None => true,
    }
}

/// Whether a line begins with the word ENDATA.
pub fn is_end_line(content: &[u8]) -> bool
    ensures { result ≡ is_end_line content.now }
{
    match content.strip_prefix(END_WORD) {
        Some(rest) => is_word_end(rest),
        None => false,
    }
}

// Whether the file passes the limit in this line, and it is not ENDATA.
fn is_too_long(content: &[u8], through: usize) -> bool
    ensures { result ≡ (nat_lt 268435456 through && not (is_end_line content.now)) }
{
    through > LIMIT && !is_end_line(content)
}

// Whether a section is BOUNDS.
fn is_bounds(section: Option<Section>) -> bool
    ensures { result ≡ is_bounds section }
{
    match section {
        Some(Section::Bounds) => true,
        _ => false,
    }
}

// Returns the fault of the type of a bound, if the section is BOUNDS.
fn bad_type(section: Option<Section>, word: &[u8]) -> Option<Kind>
    ensures { (more : List (List ℕ))
        → or_fault (semi_continuous section (word.now ∷ more))
        (bad_bound_kind section (word.now ∷ more))
        ≡ option_map (as_fault word.now) result }
{
    if !is_bounds(section) {
        return None;
    }
    if is_semi_continuous(word) {
        return Some(Kind::SemiContinuous);
    }
    match bound_kind_of(word) {
        Some(_) => None,
        None => Some(Kind::BoundKind),
    }
}

// What the words of a data line are in the section.
fn shape_in<'a>(section: Option<Section>, words: &[&'a [u8]]) -> Option<LineShape<'a>>
    ensures { option_map shape_shaped result ≡ shape_in section (map (λ word. word.now) words.now) }
{
    match section {
        Some(section) => shape_of(section, words),
        None => None,
    }
}

// Takes the words of a data line.
fn take_data(
    alloc: Global,
    draft: &mut Draft,
    line: u64,
    first: &[u8],
    words: &[&[u8]],
) -> Result<(), MpsError>
    requires first { IsFirst first.now (map (λ word. word.now) words.now) }
    requires words { AreWords (map (λ word. word.now) words.now) }
    ensures { TakesData line (map (λ word. word.now) words.now) draft.old draft.new result }
{
    let section = draft.section();
    if let Some(kind) = bad_type(section, first) {
        return Err(fault_of(alloc, line, kind, first));
    }
    if !are_short(words) {
        return Err(bare_fault(line, Kind::Words));
    }
    let Some(shape) = shape_in(section, words) else {
        return Err(bare_fault(line, Kind::Words));
    };
    draft.take(line, &shape)
}

// Takes the words of a line.
fn take_words(
    alloc: Global,
    draft: &mut Draft,
    line: u64,
    is_data: bool,
    words: &[&[u8]],
) -> Result<(), MpsError>
    requires { AreWords (map (λ word. word.now) words.now) }
    ensures { TakesWords line is_data (map (λ word. word.now) words.now) draft.old draft.new
        result }
{
    match words {
        [] => Ok(()),
        [first, more @ ..] => {
            if is_data {
                take_data(alloc, draft, line, first, words)
            } else {
                draft.header(line, first, more)
            }
        }
    }
}

/// Takes the next line of the file into the draft, or reports its fault. `line` is its number,
/// `through` how many bytes of the file there are up to its end.
pub fn take_line(
    alloc: Global,
    draft: &mut Draft,
    line: u64,
    content: &[u8],
    through: usize,
) -> Result<(), MpsError>
    ensures { TakesLine line (record { content = content.now; through = through }) draft.old
        draft.new result }
{
    if is_too_long(content, through) {
        return Err(bare_fault(line, Kind::TooLong));
    }
    if is_comment(content) {
        return Ok(());
    }
    if !is_legible(content) {
        return Err(bare_fault(line, Kind::Byte));
    }
    let mut places: [&[u8]; MOST_WORDS] = [b""; MOST_WORDS];
    let count = words_of(content, &mut places);
    take_words(alloc, draft, line, is_data(content), &places[..count])
}
