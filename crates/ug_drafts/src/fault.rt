ghost use Rattle.std.specs.Prelude.{◌≡◌};

use std::alloc::{AllocError, AllocFailed};
use ug_lists::Text;

/// Why a file is refused. The word at fault is printed behind the kind, where one is named here.
#[derive(Clone, Copy, PartialEq, Eq)]
pub enum Kind {
    /// A byte that no word, blank or line end may hold, outside comments.
    Byte,
    /// A wrong number of words, a word above 255 bytes, a bad or a second sense, or no section for
    /// a data line.
    Words,
    /// A header that is not listed, or that stands twice: the header's word.
    Section,
    /// An unknown row type: the word.
    RowKind,
    /// An unknown marker: the word.
    Marker,
    /// An unknown bound type: the word.
    BoundKind,
    /// The bound type of a semi-continuous column: the word.
    SemiContinuous,
    /// A row or a column that was not named before: its name.
    Unknown,
    /// A row named again, a column begun again, or a row again within a column, right-hand sides or
    /// ranges: its name.
    Duplicate,
    /// A word that is no number: the word.
    Number,
    /// A bound, or the numbers of a row, beyond the limits: the column or the row.
    TooWide,
    /// More columns, rows or pairs than the limits allow.
    TooMany,
    /// More bytes than the limit allows before ENDATA.
    TooLong,
    /// The file ends without an ENDATA line.
    NoEnd,
    /// A column that is not integer: its name.
    Continuous,
    /// A column with an infinite bound: its name.
    Unbounded,
}

/// A fault of the file: the first one.
#[derive(Drop)]
pub struct MpsFault {
    /// The line, counted from 1; 0 for an empty text.
    pub line: u64,
    pub kind: Kind,
    /// The word at fault, where there is one.
    pub word: Option<Text>,
}

/// Why no problem was read.
#[derive(Drop)]
pub enum MpsError {
    Memory,
    Fault(MpsFault),
}

impl From<AllocError> for MpsError {
    ghost use Rattle.ug_drafts.specs.declared.fault.MpsError.TheVariants.{Memory};

    ghost from_gives = { λ _ e. e ≡ Memory };

    fn from(_error: AllocError) -> MpsError {
        MpsError::Memory
    }
}

impl<T: Drop> From<AllocFailed<T>> for MpsError {
    ghost use Rattle.ug_drafts.specs.declared.fault.MpsError.TheVariants.{Memory};

    ghost from_gives = { λ _ e. e ≡ Memory };

    fn from(_error: AllocFailed<T>) -> MpsError {
        MpsError::Memory
    }
}
