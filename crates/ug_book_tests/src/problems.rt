//! The small problems of these tests, each read from its text.

use std::alloc::Global;
use ug_drafts::MpsError;
use ug_mps::read;
use ug_problem::Problem;

/// Two columns from 0 to 7, whose sum is at least 5 and minimised.
pub const SQUARE: &[u8] = b"ROWS
 N Z
 G r
COLUMNS
 M 'MARKER' 'INTORG'
 x Z 1 r 1
 y Z 1 r 1
RHS
 r 5
BOUNDS
 UP x 7
 UP y 7
ENDATA
";

const LINE: &[u8] = b"ROWS
 N Z
COLUMNS
 M 'MARKER' 'INTORG'
 x Z 1
BOUNDS
 LO x 2
 UP x 9
ENDATA
";

/// The problem of the square.
pub fn square(alloc: Global) -> Result<Problem, MpsError> {
    read(alloc, SQUARE, None)
}

/// One column from 2 to 9, which is minimised.
pub fn line(alloc: Global) -> Result<Problem, MpsError> {
    read(alloc, LINE, None)
}
