//! Small problems, made by their numbers: three rows and three columns each.

use std::alloc::Global;
use ug_mps::read;
use ug_problem::Problem;

const ROWS: &[&str] = &["P", "Q", "R"];

const COLUMNS: &[&str] = &["X", "Y", "W"];

// The numbers that are drawn.
const NUMBERS: &[&str] = &[
    "-4", "-3", "-2", "-1", "0", "1", "2", "3", "4", "5", "6", "7", "8", "9", "10", "11", "12",
    "13", "14", "15",
];

// The next draw of up to this many numbers.
fn drawn(state: &mut u64, count: u32) -> u32 {
    *state = state
        .wrapping_mul(6_364_136_223_846_793_005)
        .wrapping_add(1_442_695_040_888_963_407);
    ((*state >> 33) as u32).checked_rem(count).unwrap_or(0)
}

// A draw of this many numbers from this place on.
fn spelled(state: &mut u64, place: u32, count: u32) -> &'static str {
    let drawn = place.saturating_add(drawn(state, count));
    NUMBERS.get(drawn as usize).copied().unwrap_or("")
}

// Appends the words of a line, each behind a blank. Whether there was memory for them, as of each
// call here.
fn push_line(text: &mut Vec<u8>, words: &[&str]) -> bool {
    let mut so = true;
    for word in words {
        so = so && push(text, " ") && push(text, word);
    }
    so && push(text, "\n")
}

fn push(text: &mut Vec<u8>, word: &str) -> bool {
    text.extend_from_slice(word.as_bytes()).is_ok()
}

// Appends a header, and the lines behind it.
fn push_section(text: &mut Vec<u8>, header: &str, lines: &[u8]) -> bool {
    push(text, header) && text.extend_from_slice(lines).is_ok()
}

// What a file says of its rows, and of its columns, section by section, without their headers.
#[derive(Drop)]
struct Sections {
    rows: Vec<u8>,
    columns: Vec<u8>,
    sides: Vec<u8>,
    ranges: Vec<u8>,
    bounds: Vec<u8>,
}

impl Sections {
    fn new(alloc: Global) -> Sections {
        Sections {
            rows: Vec::new(alloc),
            columns: Vec::new(alloc),
            sides: Vec::new(alloc),
            ranges: Vec::new(alloc),
            bounds: Vec::new(alloc),
        }
    }

    // A row with a side from -4 on, or with two.
    fn add_row(&mut self, row: &'static str, state: &mut u64) -> bool {
        let side = spelled(state, 0, 20);
        let drawn = drawn(state, 4);
        let kind = match drawn {
            0 => "L",
            1 => "E",
            _ => "G",
        };
        push_line(&mut self.sides, &[row, side])
            & push_line(&mut self.rows, &[kind, row])
            & (drawn < 3 || push_line(&mut self.ranges, &[row, "3"]))
    }

    // A coefficient of the column in the row, from -4 on.
    fn add_factor(&mut self, column: &'static str, row: &'static str, state: &mut u64) -> bool {
        let factor = spelled(state, 0, 10);
        push_line(&mut self.columns, &[column, row, factor])
    }

    // A column from -1 on, in the objective and in most of the rows.
    fn add_column(&mut self, column: &'static str, state: &mut u64) -> bool {
        let mut so = self.add_factor(column, "Z", state);
        for row in ROWS {
            if drawn(state, 6) > 0 {
                so &= self.add_factor(column, row, state);
            }
        }
        let high = spelled(state, 4, 9);
        // Two lines: a word may have an end of a line in it.
        let bounds = ["LO D", column, "-1\n UP D", column, high];
        so & push_line(&mut self.bounds, &bounds)
    }

    // A row that no point breaks, with a coefficient so large that no sum is kept in 64 bits.
    fn add_wide(&mut self) -> bool {
        push_line(&mut self.rows, &["G", "V"])
            & push_line(&mut self.columns, &["X", "V", "1000000000000"])
            & push_line(&mut self.sides, &["V", "-9000000000000000000000"])
    }

    // The rows and the columns of a number, three each, and where it is to be wide one row more.
    fn add(&mut self, number: u32, wide: bool) -> bool {
        let mut state = u64::from(number);
        let mut so = !wide || self.add_wide();
        for row in ROWS {
            so &= self.add_row(row, &mut state);
        }
        for column in COLUMNS {
            so &= self.add_column(column, &mut state);
        }
        so
    }

    // All of them behind their headers.
    fn push_all(&self, text: &mut Vec<u8>) -> bool {
        push_section(text, "ROWS\n N Z\n", &self.rows)
            & push_section(text, "COLUMNS\n M 'MARKER' 'INTORG'\n", &self.columns)
            & push_section(text, "RHS\n Z -2\n", &self.sides)
            & push_section(text, "RANGES\n", &self.ranges)
            & push_section(text, "BOUNDS\n", &self.bounds)
            & push(text, "ENDATA\n")
    }
}

// Appends the digits of a number.
fn push_text(alloc: Global, text: &mut Vec<u8>, number: u32, wide: bool) -> bool {
    let mut sections = Sections::new(alloc);
    let so = sections.add(number, wide) && sections.push_all(text);
    drop(sections);
    so
}

// The small problem of a number, where it is to be wide with one row more.
fn made(alloc: Global, number: u32, wide: bool) -> Option<Problem> {
    let mut text = Vec::new(alloc);
    let problem = if push_text(alloc, &mut text, number, wide) {
        read(alloc, &text, None).ok()
    } else {
        None
    };
    drop(text);
    problem
}

/// The small problem of a number.
pub fn problem(alloc: Global, number: u32) -> Option<Problem> {
    made(alloc, number, false)
}

/// The same problem with one row more, which no point breaks and whose coefficient is so large that
/// no sum of the problem is kept in 64 bits.
pub fn wide_problem(alloc: Global, number: u32) -> Option<Problem> {
    made(alloc, number, true)
}
