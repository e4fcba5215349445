use crate::expect::{same, same_at};
use std::alloc::{AllocError, Global};
use ug_lists::Items;
use ug_mps::read;
use ug_problem::{Problem, ProblemError};
use ug_records::{RecordError, from_record, to_record};
use ug_rows::Objective;

// Twice the column is at most 5, and its double less 1 is maximised, in tenths: of what is
// minimised the signs are turned.
const TEXT: &[u8] = b"OBJSENSE MAX
ROWS
 N Z
 L P
COLUMNS
 M 'MARKER' 'INTORG'
 X Z -0.2 P 2
RHS
 Z -0.1 P 5
BOUNDS
 LO X -1
 UP X 7
ENDATA
";

// Nothing at all.
fn nil(alloc: Global) -> Result<Problem, ProblemError> {
    let objective = Objective {
        terms: Items::new(alloc),
        constant: 0,
        maximise: false,
        scale: 0,
    };
    Problem::new(alloc, Items::new(alloc), Items::new(alloc), objective)
}

const SMALL: &[u8] = &[
    0, 0, 0, 1, // columns
    1, b'X', 255, 255, 255, 255, 0, 0, 0, 7, //
    0, 0, 0, 1, // rows
    1, b'P', 0, //
    1, 0, 0, 0, 0, 0, 0, 0, 0, 0, 0, 0, 0, 0, 0, 0, 5, //
    0, 0, 0, 1, //
    0, 0, 0, 0, 0, 0, 0, 0, 0, 0, 0, 0, 0, 0, 0, 0, 0, 0, 0, 2, //
    1, 1, // sense and scale
    255, 255, 255, 255, 255, 255, 255, 255, 255, 255, 255, 255, 255, 255, 255, 255, //
    0, 0, 0, 1, //
    0, 0, 0, 0, 0, 0, 0, 0, 0, 0, 0, 0, 0, 0, 0, 0, 0, 0, 0, 2,
];

// Whether this is the record of a problem.
fn is_spelled_so(alloc: Global, problem: &Problem, wanted: &[u8]) -> Result<bool, AllocError> {
    Ok(to_record(alloc, problem)?.as_slice() == wanted)
}

// Whether nothing at all is spelled by bytes of 0.
fn is_nothing_zeros(alloc: Global) -> Option<bool> {
    let problem = nil(alloc).ok()?;
    let is_so = is_spelled_so(alloc, &problem, &[0; 30]);
    drop(problem);
    is_so.ok()
}

// Whether the problem of the file is spelled so, if the file has no fault.
fn is_text_spelled_so(alloc: Global, wanted: &[u8]) -> Option<bool> {
    let problem = read(alloc, TEXT, None).ok()?;
    let is_so = is_spelled_so(alloc, &problem, wanted);
    drop(problem);
    is_so.ok()
}

#[test]
fn records_are_spelled_so(rt: HostRuntime) {
    same(&rt, &is_nothing_zeros(rt.alloc()), &Some(true));
    same(&rt, &is_text_spelled_so(rt.alloc(), SMALL), &Some(true));
}

// Returns the place of the first bad field.
fn place(alloc: Global, bytes: &[u8]) -> Option<usize> {
    match from_record(alloc, bytes).err()? {
        RecordError::BadRecord { at } => Some(at),
        _ => None,
    }
}

// The same with another value at one byte.
fn place_with(alloc: Global, written: &[u8], byte: usize, value: u8) -> Option<Option<usize>> {
    let Ok(mut bytes) = written.to_vec(alloc) else {
        return None;
    };
    if byte < bytes.len() {
        bytes[byte] = value;
    }
    let place = place(alloc, &bytes);
    drop(bytes);
    Some(place)
}

// A byte of the small record, its new value, and the place of the bad field then.
const SPOILED: &[(usize, u8, usize)] = &[
    (2, 40, 0), // 10,241 columns
    (4, 0, 4), // a name of no bytes
    (5, b' ', 5), // a blank in a name
    (6, 127, 6), // a bound above 10^9
    (10, 64, 10), //
    (16, 40, 14), // 10,241 rows
    (20, 2, 20), // a flag of 2
    (22, 127, 22), // a side above 10^37
    (38, 1, 38), // 16,777,217 terms
    (45, 1, 42), // a column that is not there
    (61, 0, 46), // a coefficient of 0
    (62, 2, 62), // a sense of 2
    (63, 61, 63), // a scale of 61
    (88, 127, 88), // a coefficient above 10^24
];

#[test]
fn bad_fields_are_named(rt: HostRuntime) {
    for (byte, value, at) in SPOILED {
        let place = place_with(rt.alloc(), SMALL, *byte, *value);
        same_at(&rt, &place, &Some(Some(*at)), byte);
    }
}

// Whether a record is that of the problem that is read of it.
fn is_read_back(alloc: Global, bytes: &[u8]) -> Option<bool> {
    let problem = from_record(alloc, bytes).ok()?;
    let is_so = is_spelled_so(alloc, &problem, bytes);
    drop(problem);
    is_so.ok()
}

#[test]
fn a_record_is_read_back(rt: HostRuntime) {
    same(&rt, &is_read_back(rt.alloc(), SMALL), &Some(true));
    // a low bound may stand above the high one
    same(&rt, &place_with(rt.alloc(), SMALL, 6, 0), &Some(None));
}
