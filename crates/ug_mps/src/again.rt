//! A file read once more, for the words on standard error: why it is refused, by the word at fault,
//! and which bounds it leaves infinite. No definition pins what these functions give.

use crate::bound_words::amount_of;
use crate::draft::Draft;
use crate::line::take_line;
use std::alloc::Global;
use ug_drafts::{
    Amount, Cause, ColumnDraft, Kind, MpsFault, RowDraft, column_kind, high_kept, is_infinite,
    low_kept, wide_part,
};
use ug_lines::{
    Section, content, cut, is_comment, is_data, is_in_any_case, section_of, sense_of, words_of,
};

/// Which bounds of a column the file leaves infinite.
#[derive(Clone, Copy)]
pub struct FreeEnds {
    pub low: bool,
    pub high: bool,
}

// This many words of a line say what is at fault with it.
const WORDS: usize = 5;

// A line, and the section that its data is of.
#[derive(Clone, Copy)]
struct Place<'a> {
    content: &'a [u8],
    section: Option<Section>,
}

// The first word of a line; an empty one where it has none.
fn first_word(line: &[u8]) -> &[u8] {
    let mut places: [&[u8]; 1] = [b""; 1];
    words_of(line, &mut places);
    places[0]
}

// Whether a line is the header of a section.
fn is_header(line: &[u8]) -> bool {
    !is_comment(line) && !is_data(line) && !line.is_empty()
}

// The line of this number, counted from 1.
fn place_of(text: &[u8], number: u64) -> Place<'_> {
    let mut rest = text;
    let mut lines = 0u64;
    let mut section = None;
    while !rest.is_empty() {
        let (piece, after) = cut(rest);
        let content = content(piece);
        lines = lines.saturating_add(1);
        if lines == number {
            return Place { content, section };
        }
        if is_header(content) {
            section = section_of(first_word(content));
        }
        rest = after;
    }
    Place {
        content: b"",
        section,
    }
}

// What the lines say up to ENDATA; None where one has a fault, or memory runs out.
fn drafted(alloc: Global, text: &[u8]) -> Option<Draft> {
    let mut draft = Draft::new(alloc);
    let mut rest = text;
    let mut lines = 0u64;
    while !rest.is_empty() {
        let (piece, after) = cut(rest);
        lines = lines.saturating_add(1);
        let through = text.len().saturating_sub(after.len());
        let took = take_line(alloc, &mut draft, lines, content(piece), through);
        if took.is_err() {
            drop(took);
            drop(draft);
            return None;
        }
        if draft.is_ended() {
            return Some(draft);
        }
        rest = after;
    }
    drop(draft);
    None
}

// Whether it is one of these words, in any case of letters.
fn is_among(word: &[u8], texts: &[&[u8]]) -> bool {
    for text in texts {
        if is_in_any_case(word, text) {
            return true;
        }
    }
    false
}

// The sections that are read.
const SECTIONS: [&[u8]; 8] = [
    b"NAME",
    b"OBJSENSE",
    b"ROWS",
    b"COLUMNS",
    b"RHS",
    b"RANGES",
    b"BOUNDS",
    b"ENDATA",
];

// Sections of problems that are not solved.
const UNSOLVED: [&[u8]; 17] = [
    b"SOS",
    b"SOS1",
    b"SOS2",
    b"SETS",
    b"INDICATORS",
    b"QUADOBJ",
    b"QMATRIX",
    b"QSECTION",
    b"QCMATRIX",
    b"CSECTION",
    b"LAZYCONS",
    b"USERCUTS",
    b"GENCONS",
    b"PWLOBJ",
    b"PWLCON",
    b"SCENARIOS",
    b"BRANCH",
];

// The words with which a file in LP format begins.
const LP_WORDS: [&[u8]; 12] = [
    b"MINIMIZE",
    b"MAXIMIZE",
    b"MINIMISE",
    b"MAXIMISE",
    b"MINIMUM",
    b"MAXIMUM",
    b"MIN",
    b"MAX",
    b"MIN:",
    b"MAX:",
    b"SUBJECT",
    b"/*",
];

// Why a word begins no section.
fn of_header(section: Option<Section>, word: &[u8]) -> Cause {
    if word.starts_with(b"\xEF\xBB\xBF") {
        return Cause::ByteOrderMark;
    }
    if section_of(word).is_some() {
        return Cause::SecondSection;
    }
    if is_among(word, &SECTIONS) {
        return Cause::SmallLetters;
    }
    if is_among(word, &UNSOLVED) {
        return Cause::Unsolved;
    }
    if sense_of(word).is_some() && section == Some(Section::Objsense) {
        return Cause::SenseAsHeader;
    }
    if word.starts_with(b"\\") || is_among(word, &LP_WORDS) {
        return Cause::LpText;
    }
    Cause::Plain(Kind::Section)
}

// Whether one of the words is longer than a name may be.
fn has_long(words: &[&[u8]]) -> bool {
    for word in words {
        if word.len() > 255 {
            return true;
        }
    }
    false
}

// Why the words behind OBJSENSE, or of a line below it, are no sense.
fn of_sense(words: &[&[u8]]) -> Cause {
    match words {
        [word] if sense_of(word).is_some() => Cause::SecondSense,
        _ => Cause::Sense,
    }
}

// Why a line has wrong words.
fn of_words(place: Place<'_>) -> Cause {
    let mut places: [&[u8]; WORDS] = [b""; WORDS];
    let count = words_of(place.content, &mut places);
    let words = &places[..count];
    if is_header(place.content) {
        return Cause::Sense;
    }
    if has_long(words) {
        return Cause::LongWord;
    }
    match place.section {
        Some(Section::Objsense) => of_sense(words),
        Some(Section::Name | Section::Endata) | None => Cause::NoSection,
        Some(_) => Cause::Plain(Kind::Words),
    }
}

// Why a bound is too wide.
fn of_bound(place: Place<'_>) -> Cause {
    let mut places: [&[u8]; WORDS] = [b""; WORDS];
    let count = words_of(place.content, &mut places);
    let number = if count < 4 { places[2] } else { places[3] };
    if number.len() > 255 {
        return Cause::WideBound;
    }
    match amount_of(number) {
        Some(Amount::BelowAll | Amount::AboveAll) => Cause::InfiniteBound,
        Some(Amount::Number(_)) | None => Cause::WideBound,
    }
}

// How many columns have a fault of this kind.
fn count_of(boxed: Option<u32>, columns: &[ColumnDraft], kind: Kind) -> u64 {
    let mut count = 0u64;
    for column in columns {
        if column_kind(boxed, column) == Some(kind) {
            count = count.saturating_add(1);
        }
    }
    count
}

// Which number is too wide of the row that this line names.
fn of_row(rows: &[RowDraft], line: u64) -> Cause {
    for row in rows {
        if row.line == line {
            return wide_part(row);
        }
    }
    Cause::Plain(Kind::TooWide)
}

// Returns why the lines do not state a problem.
fn of_draft(boxed: Option<u32>, draft: Draft, fault: &MpsFault) -> Cause {
    let (columns, rows) = draft.into_kept();
    let cause = match fault.kind {
        Kind::Continuous => Cause::Continuous(count_of(boxed, &columns, Kind::Continuous)),
        Kind::Unbounded => Cause::Unbounded(count_of(boxed, &columns, Kind::Unbounded)),
        _ => of_row(&rows, fault.line),
    };
    drop(columns);
    drop(rows);
    cause
}

/// Why the file is refused under the box, of which this is the first fault.
pub fn cause_of(alloc: Global, text: &[u8], boxed: Option<u32>, fault: &MpsFault) -> Cause {
    match fault.kind {
        Kind::Byte if fault.line == 1 => Cause::NoText,
        Kind::Section => match &fault.word {
            Some(word) => of_header(place_of(text, fault.line).section, word.as_slice()),
            None => Cause::Plain(Kind::Section),
        },
        Kind::Words => of_words(place_of(text, fault.line)),
        Kind::TooWide | Kind::Continuous | Kind::Unbounded => match drafted(alloc, text) {
            Some(draft) => of_draft(boxed, draft, fault),
            None if fault.kind == Kind::TooWide => of_bound(place_of(text, fault.line)),
            None => Cause::Plain(fault.kind),
        },
        kind => Cause::Plain(kind),
    }
}

/// Which bounds of its columns the file leaves infinite, in their order; None where memory is
/// wanting, or a line has a fault.
pub fn free_ends(alloc: Global, text: &[u8]) -> Option<Vec<FreeEnds>> {
    let draft = drafted(alloc, text)?;
    let (columns, rows) = draft.into_kept();
    drop(rows);
    let ends = ends_of(alloc, &columns);
    drop(columns);
    ends
}

// The ends of each column.
fn ends_of(alloc: Global, columns: &[ColumnDraft]) -> Option<Vec<FreeEnds>> {
    let mut ends = Vec::with_capacity(alloc, columns.len()).ok()?;
    for column in columns {
        let free = FreeEnds {
            low: is_infinite(low_kept(column)),
            high: is_infinite(high_kept(column)),
        };
        if ends.push(free).is_err() {
            drop(ends);
            return None;
        }
    }
    Some(ends)
}
